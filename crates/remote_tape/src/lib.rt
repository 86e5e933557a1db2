//! Talks to a tape drive over a connection, one request at a time.
//!
//! A `RemoteTape` sends requests to a `Peer`, and lends the records that it reads. `find_mark`
//! finds out whether a mark follows the records of a reel.
//!
//! # Contracts
//!
//! A *peer* is the far end of a connection. Its *log* lists what passed over its connections, in
//! order. The log is *known* if the peer's contract says what it contains. Promises about what
//! passes hold only then.
//!
//! A request *fails* if the server refuses it with an error, or if it gets no reply.
#![tactic(auto)]

mod fault;
mod mark_search;
mod peer;
mod reply;
mod tape;

pub use fault::{CallFault, FaultReport, TapeCause, TapeFault};
pub use mark_search::{MarkSearch, find_mark};
pub use peer::{Passed, Peer};
pub use refusals::TapeRequest;
pub use reply::TapeReply;
pub use tape::RemoteTape;
