//! The tape server: a session carries out the requests of one client at the drives, and `serve`
//! serves a stream of requests.
//!
//! # Contracts
//!
//! The crate `drives` explains seats, hold records, stacks and the bin. A *trouble* is an injected
//! fault. A session has nothing open, or one drive, which its seat holds. The *session view* is the
//! known content of the stacks and of the session's open reel. A *serve step* is a change of the
//! session view that one request, with its reply, may cause.
//!
//! Drives *match* a session if four conditions hold. The session's seat belongs to the drives' hold
//! record. The seat holds the drive that the session has open, and no other. This drive is one of
//! these drives, and the open reel is latched there. The stacks have no more drives than the hold
//! record.
//!
//! A request or a reply has a *spelling* if the protocol can express it in bytes.
#![tactic(auto)]

mod access;
mod laws;
mod refusal;
mod session;
mod stream;

pub use laws::{
    more_seats, one_holder, one_session_view, open_is_held, stacks_trouble, still_at,
    troubled_is_served, troubled_serve, troubles_set, untroubled_end,
};
pub use session::Session;
pub use stream::{ServeFault, Served, serve};
