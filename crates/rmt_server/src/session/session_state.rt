//! A seat and the device that it has open.

use crate::access::Access;

/// An open device: its drive, its access, and its reel unless the reel is in the bin.
#[derive(Drop)]
pub(crate) struct Opened<R> {
    pub(crate) drive: usize,
    pub(crate) access: Access,
    pub(crate) reel: Option<R>,
}

#[derive(Drop)]
pub(crate) struct SessionState<Seat, R> {
    pub(crate) seat: Seat,
    pub(crate) opened: Option<Opened<R>>,
}
