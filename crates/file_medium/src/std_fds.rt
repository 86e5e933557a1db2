//! The file descriptors of the standard streams.

use std::fs::{self, File};
use std::os::fd::{AsRawFd, IntoRawFd};
use std::rt::Files;

/// How many standard streams there are.
const PLACES: i32 = 3;

/// Reserves the descriptor of each standard stream that was closed when the program started.
///
/// Call it before the program opens anything. Otherwise the first file or connection would get such
/// a descriptor, and what is written to the stream would be written into it. It opens the folder
/// `/` there. If that fails, the descriptors stay free.
pub fn reserve_std_fds<R: Files<File = File>>(rt: &R) {
    for _ in 0..PLACES {
        match fs::open(rt, "/") {
            Ok(folder) if folder.as_raw_fd() < PLACES => {
                let _ = folder.into_raw_fd();
            }
            _ => return,
        }
    }
}
