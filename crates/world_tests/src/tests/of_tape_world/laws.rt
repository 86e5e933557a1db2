//! The laws of the world as plain data, each called once, and what holds of every world.

ghost use Rattle.world_model.specs.Headline.{Headline};
ghost use Rattle.world_model.specs.Further.{LabelledReels};
ghost use Rattle.world_model.specs.Kept.{IsWorldKept};

use super::world::new_world;
use std::test::Fail;
use tape_world::{DriveSpec, World};
use world_model::{faultless, kept, one_request, one_run};

#[test]
fn each_law_is_called(_rt: HostRuntime) {
    kept();
    one_request();
    one_run();
    faultless();
}

/// Shows that the headline and the invariants hold of any world.
fn ask(world: &World)
    ensures headline { Headline world.now }
    ensures labelled_reels { LabelledReels world.now }
    ensures kept { IsWorldKept world.now }
{
    world.kept();
}

#[test]
fn a_world_tells_what_is_kept(rt: HostRuntime) -> Result<(), Fail> {
    let drives = [DriveSpec {
        name: b"/dev/st0",
        capacity: 3100,
        reels: &[b"r1"],
    }];
    let world = new_world(rt.alloc(), &drives)?;
    ask(world.as_ref());
    Ok(())
}
