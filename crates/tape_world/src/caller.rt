//! The client of a world, the runs that were begun, and the run that is saved outside the client.

use dump_client::{Client, ListBlocks, Run, VolumeCount};

#[derive(Drop)]
pub(crate) struct Begun {
    pub(crate) run: Run,
    pub(crate) payload: ListBlocks,
}

/// The client, and the number of its run.
#[derive(Drop)]
pub(crate) struct WorldClient {
    pub(crate) number: usize,
    pub(crate) client: Client<ListBlocks>,
}

/// A run that is saved outside the client, as in a checkpoint file.
#[derive(Drop)]
pub(crate) struct KeptRun {
    pub(crate) run: usize,
    /// The counts that the client had then.
    pub(crate) counts: Vec<VolumeCount>,
    /// The text of the checkpoint.
    pub(crate) text: Vec<u8>,
}
