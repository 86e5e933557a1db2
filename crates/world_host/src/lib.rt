//! One tape server with all its connections, and the bytes in transit on them.
//!
//! `Host` has the drives, with reels in memory, and a reader of requests and a session for each
//! connection. Connections are numbered from 1 in the order in which they are admitted. A session's
//! seat has the number of its connection.
//!
//! A `Connection` has the bytes in transit each way (`Direction`) and, if its peer is the client,
//! the progress of the client's attempt (`AttemptState`).
//!
//! # Contracts
//!
//! The model `tape_world` and the simulator `rsim` use this crate, but `rmtd` and `rdump` do not.
//!
//! The *server's side* is the server's half of a connection: a session and a *reader*. The reader
//! keeps the bytes that `push` takes until the server carries out the requests in them. The
//! server's side is *live* while the session lasts. In one *turn*, it carries out at most one
//! request, or finds a fault in the bytes that arrived. The *holder* of a drive is the connection
//! whose session has the drive open. A reel is *latched* while a session has the reel open. The
//! crate `drives` explains seats, stacks and the bin.
//!
//! The *peer* of a connection is the client or a *stranger*, which is any other program. Bytes that
//! were sent and have not arrived are *in transit*. After a connection is *cut*, bytes that are
//! sent on it are lost.
#![tactic(auto)]

mod connection;
mod direction;
mod dumping;
mod host;
mod serving;
mod side;
mod turn;

pub use connection::{
    Connection, arrive, cut, deliver_back, end_all_here, end_here, end_there, find, send,
};
pub use direction::Direction;
pub use dumping::AttemptState;
pub use host::Host;
pub use turn::{Answered, Carried, RequestKind, Turn};
