//! A file of the operating system as a medium. `reserve_std_fds` makes sure that no file gets the
//! descriptor of a standard stream.
//!
//! # Contracts
//!
//! The contracts promise nothing about the file's content. A medium holds bytes (see the crate
//! `tape`). A *cut* is a call of `cut`, which shortens the medium to a given length.
#![tactic(auto)]

mod file_medium;
mod std_fds;

pub use file_medium::FileMedium;
pub use std_fds::reserve_std_fds;
