//! The limits of the wire format.

/// The largest number in a request or a reply.
pub const NUMBER_LIMIT: u32 = 2147483647;

/// The most bytes in a device, mode or close line, without its line feed, and in an error's text.
pub const LINE_LIMIT: usize = 255;

/// The most bytes in a record, and so in a block of a dump. The data of a longer write are dropped,
/// and a `ReplyReader` waits for no more.
pub const RECORD_LIMIT: usize = 262144;

/// The size in bytes of a reader's buffer: a letter, ten digits, a line feed and a record.
pub const READER_LIMIT: usize = RECORD_LIMIT + 12;
