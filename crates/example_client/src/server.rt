//! The server of a dump.
use std::alloc::AllocError;

/// A server that answers each request at once.
pub trait Server {
    /// Appends the answer to a whole request to `reply`, or nothing if the connection has ended.
    /// Fails only if an allocation fails.
    fn answer(&mut self, request: &[u8], reply: &mut Vec<u8>) -> Result<(), AllocError>;
}
