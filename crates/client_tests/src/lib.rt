//! Tests of dumps, of volumes that are read back, and of listed reels, by public calls alone. They
//! are a crate of their own so that each of these crates is proved only once:
//! - the files of a dump: `whole_files`, `dump_files`.
//! - its conversation over a connection: `rdump_net`, and `remote_tape`.
//! - the sums of volumes, and the lines of a dump in a catalog: `dump_files`, `rdump_fetch`.
//! - copies of reels: `rdump_fetch`.
//! - lists of reels: `rdump_list`.
#![tactic(auto)]

#[cfg(test)]
mod tests;
