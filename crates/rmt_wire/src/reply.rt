//! Replies of a tape server.

mod append;
mod front;
mod parts;
mod reader;
mod wanted;
mod writer;

pub use append::push_reply;
pub use reader::ReplyReader;
pub use wanted::Wanted;
pub(crate) use writer::output;
pub use writer::{OutputFault, write_reply};

/// A reply of a tape server, one to each request (rmt(8)). LF and numbers are as in `Request`.
#[derive(Clone, Copy, Debug)]
pub enum Reply<'a> {
    /// The request succeeded. Syntax: `A` number LF.
    Done { number: u32 },
    /// The bytes that were read, none at a mark or at the end of a reel. Syntax: `A` count LF, then
    /// that many bytes, with no LF after them.
    Data { bytes: &'a [u8] },
    /// The request was refused. Syntax: `E` number LF text LF. A text that is written has no LF and
    /// up to `LINE_LIMIT` bytes. A reader keeps this many of a longer one.
    Error { number: u32, text: &'a [u8] },
}
