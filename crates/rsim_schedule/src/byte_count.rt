//! Counts of bytes that arrive.

/// How many of the bytes in transit on a connection arrive, as a line of a schedule gives it.
#[derive(Clone, Copy)]
pub(crate) enum ByteCount {
    /// All of them. If they are for the server, only as many as its reader has room for.
    All,
    /// Exactly this many.
    Exactly(usize),
}

impl ByteCount {
    /// Returns how many bytes arrive if `all` can. With `Exactly` this can be more than `all`.
    pub(crate) fn resolve(self, all: usize) -> usize {
        match self {
            ByteCount::All => all,
            ByteCount::Exactly(count) => count,
        }
    }
}
