//! What a client waits for.

/// The kind of reply that a client waits for. An error may come in place of either.
#[derive(Clone, Copy, Debug, PartialEq, Eq)]
pub enum Wanted {
    /// `Reply::Done`, to each request except a read.
    Number,
    /// `Reply::Data`, of at most this many bytes. A reader waits for up to `RECORD_LIMIT`.
    Data(u32),
}
