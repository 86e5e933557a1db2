//! The client's side of a dump to a remote tape (dump(8), rmt(8)).
//!
//! `Client` makes the requests that write a run's volumes, one attempt after the other. It takes
//! the replies, and counts the volumes that are written. It opens no connection: the caller carries
//! the bytes.
//!
//! # Contracts
//!
//! In an *attempt*, the client works on one volume and uses one connection. A *step* of an attempt
//! is one request with its reply. docs/WORLD.md lists the steps. The *open* is the first step, and
//! the *close* is the last. The *look* is the step that reads the reel's first record, before
//! anything is written. A *script* is the list of an attempt's requests, each with its *wanted*
//! replies, which let the attempt continue. There is one script for each possible number of blocks
//! in the volume. The client *counts* a volume when the wanted reply to MTOFFL arrives, and in no
//! other case. Each *count* records one counted volume: its number, first block and number of
//! blocks. The *stage* of a client says whether an attempt is under way and, if so, at which step.
//! `dump_run` explains *run*, *source*, *checkpoint* and *in order*. The functions of `laws` do
//! nothing: the contract of each is a law of the definitions.
#![tactic(auto)]

mod client;
mod count;
mod fault;
mod laws;
mod ledger;
mod listen;
mod outcome;
mod request;
mod stage;
mod step;

pub use client::Client;
pub use dump_run::{
    BLOCKS_LIMIT, Blocks, ListBlocks, ResumeFault, Run, RunFault, SourceFailed, VolumeCount,
    VolumeLabel,
};
pub use fault::{AttemptFault, StartFault};
pub use laws::{
    after_the_count, counted_reels, fed_in_pieces, granted_replies, lawful_positions, resumes,
    same_run, sent_in_order, short_requests, wanted_replies,
};
pub use stage::{Answer, Progress, State};
