//! An entry of a reel: a record or a mark.

/// The size in bytes of a length in a record file. A record has one before its bytes and one after
/// them. A mark is one length, 0.
pub const LENGTH_BYTES: u64 = 4;

pub(crate) const RECORD_FRAME: u64 = 2 * LENGTH_BYTES;

pub(crate) const MARK_SIZE: u64 = LENGTH_BYTES;

/// An entry of a tape. A record takes its length plus 8 bytes of the reel's capacity, a mark 4.
#[derive(Debug, Drop)]
pub enum Entry {
    /// A record, of 1 to 262,144 bytes.
    Record(Vec<u8>),
    /// A file mark.
    Mark,
}
