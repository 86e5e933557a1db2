//! Whether standard output is a terminal.

use crate::ClientSystem;
use std::fs;
use std::os::unix::fs::FileTypeExt;

/// Standard output, as a path.
const OUTPUT: &str = "/proc/self/fd/1";

/// Returns whether standard output may be a terminal: it is a character device, or the system does
/// not report what it is.
pub fn may_be_terminal<R: ClientSystem>(rt: &R) -> bool {
    match fs::metadata(rt, OUTPUT) {
        Ok(found) => found.file_type().is_char_device(),
        Err(_) => true,
    }
}
