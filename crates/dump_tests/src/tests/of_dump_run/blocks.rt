//! Blocks of a payload in memory, with and without an injected fault.

ghost use Rattle.dump_run.specs.Blocks.{HasBlock};

use dump_run::{Blocks, ListBlocks};

/// Whether the last of three blocks is not read while reads fail, is read once they succeed again,
/// and the failure was counted.
fn reads_are_met(source: &mut ListBlocks) -> bool
    requires last { HasBlock source.old.blocks 2 3 }
{
    let mut into = *b"---";
    source.trouble(true);
    let failed = source.read(2, &mut into);
    source.trouble(false);
    let read = source.read(2, &mut into);
    failed.is_err() && read.is_ok() && into == *b"ghi" && source.failures() == 1
}

#[test]
#[tactic(auto, using(dump_run::proofs::Cut::has_block))]
fn reads_in_trouble_fail(rt: HostRuntime) {
    let payload = Vec::from_slice(rt.alloc(), b"abcdefghi").expect(&rt, "memory");
    assert!(rt; reads_are_met(&mut ListBlocks::new(payload, 3, 3)));
}

#[test]
#[tactic(auto, using(dump_run::proofs::Cut::has_block))]
fn a_copy_is_read_as_the_payload(rt: HostRuntime) {
    let payload = Vec::from_slice(rt.alloc(), b"abcdefghi").expect(&rt, "memory");
    let source = ListBlocks::new(payload, 3, 3);
    let mut copy = source.clone().expect(&rt, "memory");
    assert!(rt; reads_are_met(&mut copy));
    assert!(rt; source.failures() == 0);
}
