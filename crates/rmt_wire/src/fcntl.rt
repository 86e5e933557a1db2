//! The access modes of an open, by fcntl's numbers.

/// Read only.
pub const O_RDONLY: u32 = 0;

/// Write only.
pub const O_WRONLY: u32 = 1;

/// Read and write.
pub const O_RDWR: u32 = 2;

/// A mode modulo this number is its access. 3 is not valid. Higher bits are ignored.
pub const ACCESS_MODES: u32 = 4;
