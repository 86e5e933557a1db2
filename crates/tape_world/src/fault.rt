//! Why a list of events stops.

/// Why `run` stopped, with the index of the event that did not happen, from 0. The world is as
/// after the events before it.
#[derive(Clone, Copy, Debug, PartialEq, Eq)]
pub enum WorldFault {
    /// The event is not possible there.
    NotPossible(usize),
    /// An allocation failed.
    OutOfMemory(usize),
}
