//! A drive of a schedule.

/// A drive of a schedule: its device, the capacity of each of its reels in bytes, and their names.
#[derive(Drop)]
pub(crate) struct DriveLine<'a> {
    pub(crate) device: &'a [u8],
    pub(crate) capacity: u64,
    pub(crate) reels: Vec<&'a [u8]>,
}
