//! The wire format of the remote magtape protocol, rmt(8), with its limits and the numbers of
//! `mtio`, `fcntl` and `errno`.
//!
//! For a server: `RequestReader` splits a stream into requests, `write_reply` writes a reply, and
//! `Counted` counts the failures of a stream. For a client: `push_request` and `ReplyReader`. For
//! programs: `print_text`, `find_byte` and `argument`.
//!
//! # Contracts
//!
//! docs/PROTOCOL.md says which bytes *spell* a request or a reply. A reader keeps bytes of a stream
//! in its buffer, of fixed size. They are *unread* until `next` returns the request or reply that
//! contains them. A reader *lends* data or a text as a reference into its buffer.
#![tactic(auto)]

mod append;
pub mod argument;
mod counted;
pub mod errno;
mod fault;
pub mod fcntl;
mod find;
mod kept;
mod laws;
mod limits;
pub mod mtio;
mod number;
mod print;
mod reply;
mod request;
mod short_text;

pub use counted::Counted;
pub use fault::WireFault;
pub use find::find_byte;
pub use laws::{
    dropped_writes, long_texts, one_reading, one_reply, one_reply_reading, short_replies,
};
pub use limits::{LINE_LIMIT, NUMBER_LIMIT, READER_LIMIT, RECORD_LIMIT};
pub use print::print_text;
pub use reply::{OutputFault, Reply, ReplyReader, Wanted, push_reply, write_reply};
pub use request::{Request, RequestReader, StreamFault, push_request, push_write_line};
