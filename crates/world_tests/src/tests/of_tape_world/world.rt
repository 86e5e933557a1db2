//! New worlds.

use std::alloc::Global;
use std::boxed::Box;
use std::test::Fail;
use tape_world::{DriveSpec, World, good_drives};

/// Makes a new world of these drives. It is boxed so that one call drops it, wherever that is.
pub(crate) fn new_world(alloc: Global, drives: &[DriveSpec<'_>]) -> Result<Box<World>, Fail> {
    if !good_drives(drives) {
        return Err(Fail::new("not the drives of a world"));
    }
    Ok(Box::new(alloc, World::new(alloc, drives)?)?)
}
