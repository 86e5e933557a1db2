//! The far end of a connection.
ghost use Rattle.std.specs.Prelude.{◌≤◌, List, [], length, take};
ghost use Rattle.remote_tape.specs.Peer.{AreBytesSent, Logs, connected, given};
ghost use Rattle.remote_tape.specs.declared.peer.Passed.{Passed};

/// One event between a caller and a peer.
#[derive(Clone, Copy, Debug, PartialEq, Eq)]
pub enum Passed {
    Connected,
    Sent(u8),
    /// This byte came from the peer.
    Given(u8),
    /// The connection ended, or could not be made.
    Ended,
}

/// The far end of a connection, which can be made again.
///
/// `connect` and `send` return `false`, and `receive` 0 for a buffer with room, if and only if
/// there is no connection or it ended.
pub trait Peer {
    ghost use Rattle.std.specs.Prelude.{List};
    ghost use Rattle.remote_tape.specs.declared.peer.Passed.{Passed};

    /// What passed so far, in order, if this peer logs it.
    ghost tells: { Self → List Passed → Type 0 };

    /// Connects, and first drops an earlier connection. Returns whether it could.
    fn connect(&mut self) -> bool
        ensures { Logs tells self.old self.new (connected result) };

    /// Sends the bytes. Returns false if the connection ended and only a beginning of them was
    /// sent, perhaps none.
    fn send(&mut self, bytes: &[u8]) -> bool
        ensures { (passed : List Passed) × AreBytesSent bytes.now result passed × Logs tells self.old self.new passed };

    /// Receives bytes into the front of `into`, and returns how many. Returns 0 if `into` has no
    /// room, or if there is no connection or it ended.
    fn receive(&mut self, into: &mut [u8]) -> usize
        ensures within { result ≤ length into.new }
        ensures told { Logs tells self.old self.new (given into.new (take result into.new)) };

    /// Closes the connection, if there is one. Nothing is logged.
    fn hang_up(&mut self)
        ensures { Logs tells self.old self.new [] };
}
