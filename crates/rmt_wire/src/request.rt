//! Requests to a tape server.

mod append;
mod front;
mod head;
mod line;
mod reader;

pub use append::{push_request, push_write_line};
pub use reader::{RequestReader, StreamFault};

/// A request to a tape server (rmt(8)), with bytes that its reader lends.
///
/// In a syntax, LF is the byte 10, a number is 1 to 10 digits with a value up to `NUMBER_LIMIT`,
/// and a line has up to `LINE_LIMIT` bytes without its LF. Another error may come before EINVAL,
/// such as EBADF because no device is open.
#[derive(Clone, Copy, Debug)]
pub enum Request<'a> {
    /// Closes the open device, if any, then opens this one. Syntax: `O` device LF mode LF.
    ///
    /// The mode is a number, which a space and any text may follow. The number modulo 4 is the
    /// access: 0 read only, 1 write only, 2 both. 3 is refused with EINVAL.
    Open { device: &'a [u8], mode: u32 },
    /// Closes the device. Syntax: `C` text LF. The text is ignored.
    Close,
    /// Writes one record. Syntax: `W` count LF, then that many bytes, up to `RECORD_LIMIT`. 0 is
    /// refused with EINVAL.
    Write { bytes: &'a [u8] },
    /// A write of more than `RECORD_LIMIT` bytes, which were read and dropped. It is refused with
    /// EINVAL.
    WriteDropped { count: u32 },
    /// Reads one record, and returns at most `count` bytes of it. Syntax: `R` count LF. A count
    /// above `RECORD_LIMIT` is reduced to that. 0 is refused with EINVAL.
    Read { count: u32 },
    /// Does an operation of `mtio`. Syntax: `I` operation LF count LF. The server decides which
    /// numbers have an effect.
    Op { op: u32, count: u32 },
}
