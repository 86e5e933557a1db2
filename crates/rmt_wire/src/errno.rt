//! The errno numbers of error replies.

/// No drive has the name.
pub const ENOENT: u32 = 2;

/// The device failed, or the tape reached a mark or its end before the count was done.
pub const EIO: u32 = 5;

/// The drive has no reel.
pub const ENXIO: u32 = 6;

/// No device is open, or it is not open for this read or write.
pub const EBADF: u32 = 9;

/// Cannot allocate memory.
pub const ENOMEM: u32 = 12;

/// The device is not open for writing, so no file mark is written.
pub const EACCES: u32 = 13;

/// Another session holds the drive.
pub const EBUSY: u32 = 16;

/// Invalid argument.
pub const EINVAL: u32 = 22;

/// The reel is full.
pub const ENOSPC: u32 = 28;
