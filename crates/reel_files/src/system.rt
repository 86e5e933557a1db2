//! The parts of the system that drives in folders use.

use std::fs::File;
use std::rt::{Clock, Files};

/// A runtime with files, a clock and an allocator.
pub trait FolderSystem: Files<File = File> + Clock + AllocGlobal + Clone + Drop {}

impl<R: Files<File = File> + Clock + AllocGlobal + Clone + Drop> FolderSystem for R {}
