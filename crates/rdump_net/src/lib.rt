//! Runs a dump over a connection: sends the client's requests to a tape server, and prints lines
//! for the operator.
//!
//! `dump` makes a client write its volumes, and asks the operator after a failure. `dump_to_end`
//! does so with a `DumpObserver`, which keeps a checkpoint. `Retries` decides whether a dump
//! without an operator tries again.
//!
//! `copy_volume` and `read_volume` read a volume back. `look_at_reel` finds out what a reel begins
//! with, and `find_protection` decides whether a dump may write on it. `mt` does one operation.
//!
//! # Contracts
//!
//! A *peer* (`Peer` of `remote_tape`) is the far end of a connection. Its *log* lists in order what
//! passed over its connections. The log is *known* if the peer's contract says what it contains.
//! Promises about what passes hold only then. The log of a `SocketPeer`, over TCP or a Unix socket,
//! is not known. No clause says which error a `SocketPeer` returns, or how long it waits.
//!
//! A *sink* receives a volume that is read: the label, each later record as a *block*, and the mark
//! that ends the volume. It *accepts* the label or a block, or stops the read. After the mark it is
//! asked to *complete* the volume: to confirm that it has kept the volume.
//!
//! An *observer* attends a dump. The *count* (`VolumeCount`) of a volume has its number, its first
//! block, and how many blocks it has. The client's *checkpoint* is its run, with the volumes
//! counted so far. The observer's *log* lists in order the counts that it was told of, the
//! checkpoints that it kept, and what it was asked to do after the dump.
//!
//! Promises about a sink or an observer hold only if its contract says what its calls do, or what
//! its log contains.
#![tactic(auto)]

mod attempt;
mod conclusion;
mod fault;
mod kept;
mod lines;
mod look;
mod observer;
mod operation;
mod operator;
mod printing_sink;
mod protection;
mod retries;
mod rounds;
mod settle;
mod sink;
mod socket;
mod volume;

pub use conclusion::{Conclusion, DumpEnd};
pub use fault::ReadFault;
pub use kept::{dump, dump_to_end};
pub use lines::{LINE_ROOM, failure_line};
pub use look::{ReelFront, look_at_reel};
pub use observer::{DumpObserver, Reply};
pub use operation::mt;
pub use operator::Answers;
pub use protection::{Protection, find_protection};
pub use remote_tape::{CallFault, Passed, Peer, TapeCause, TapeFault, TapeRequest};
pub use retries::{Retries, Setback};
pub use sink::{SinkStopped, Verdict, VolumeSink};
pub use socket::SocketPeer;
pub use volume::{AfterVolume, copy_volume, read_volume};
