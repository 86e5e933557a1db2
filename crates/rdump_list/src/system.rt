//! The parts of the runtime that `rdump ls` uses.
use std::fs::File;
use std::net::Net;
use std::rt::{Clock, Files};

/// The parts of the runtime that `rdump ls` uses. The clock times the line of progress, and the
/// wait before a connection that follows a failed one.
pub trait ListSystem: AllocGlobal + Clock + Eprint + Files<File = File> + Net + Print {}

impl<R: AllocGlobal + Clock + Eprint + Files<File = File> + Net + Print> ListSystem for R {}
