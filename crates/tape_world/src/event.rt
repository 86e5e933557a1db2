//! An event: one thing that can happen in a world.

use dump_client::{Answer, Run};
use tape::Trouble;

/// An event between a client and a server. If it is not possible, `run` returns `NotPossible`.
///
/// Connections are identified by number, from 1, in the order in which they were made. The peer of
/// a connection is the client or a stranger.
#[derive(Clone, Copy)]
pub enum Event<'a> {
    /// A run with this payload begins, with a client for it. There must be no client, or its run
    /// must be finished or abandoned. The payload must have as many bytes as the run's blocks.
    StartRun {
        run: &'a Run,
        payload: &'a [u8],
    },
    /// The client, which must be ready, starts an attempt on a new connection.
    Connect,
    /// The client, which must be about to send, sends its next request. If `fails` is true, and the
    /// request is the write of a block, the read of that block fails instead.
    Send {
        fails: bool,
    },
    /// `count` of the bytes in transit reach the server: at least 1, and at most as many as its
    /// reader has room for. The server's side must be live.
    ToServer {
        connection: usize,
        count: usize,
    },
    /// The server carries out one request that reached it, or finds that the bytes that reached it
    /// are no request. If the request makes a device call, the call meets this trouble.
    Serve {
        connection: usize,
        trouble: Trouble,
    },
    /// `count` of the bytes in transit reach the peer, which must still be there: at least 1.
    ToClient {
        connection: usize,
        count: usize,
    },
    /// From now on, what is sent on the connection is lost. The connection must not be cut already.
    Cut {
        connection: usize,
    },
    /// The server sees that the connection ended. The connection must be cut, and the server's side
    /// must be live.
    EndAtServer {
        connection: usize,
    },
    /// The peer, which must still be there, sees that the connection ended. The connection must be
    /// cut.
    EndAtClient {
        connection: usize,
    },
    /// The server restarts, which ends the server's side of every connection.
    ServerRestart,
    /// The client restarts. It resumes the saved run, or there is no client afterwards if none is
    /// saved.
    ClientRestart,
    /// The operator answers the client, which asks after an attempt failed.
    Respond {
        answer: Answer,
    },
    /// The operator puts these reels on the stack of a drive that nobody has open. Each must be in
    /// the bin or on that stack, and none may occur twice.
    Arrange {
        drive: &'a [u8],
        reels: &'a [&'a [u8]],
    },
    /// A stranger connects.
    Stranger,
    /// A stranger, which must still be there, sends these bytes.
    Says {
        connection: usize,
        bytes: &'a [u8],
    },
    /// The run, which must be finished and not entered yet, is entered in dumpdates.
    Enter,
    /// The client's run is saved outside the client, with its counts, as in a checkpoint file. The
    /// run must not be abandoned, and not both finished and entered.
    Save,
}
