//! The sum of a volume, as a world returns it.

ghost use Rattle.std.specs.Prelude.{◌≡◌, length};

use super::world::new_world;
use dump_run::{Blocks, ListBlocks, Run, VolumeCount, label};
use std::test::Fail;
use tape_world::{DriveSpec, World};
use volume_check::Summed;

/// The volume of the blocks `ab` and `cd`: its label begins with 58 bytes of text.
///
/// `(printf '\0\4\0\0name /usr\nlevel 0\ndate 951782400\nsince 0\nvolume 1\nfirst 0\n';`
/// `head -c 966 /dev/zero; printf '\0\4\0\0\2\0\0\0ab\2\0\0\0\2\0\0\0cd\2\0\0\0\0\0\0\0') |`
/// `sha256sum`
static OF_TWO_BLOCKS: &[u8; 32] =
    b"\x5c\x3b\xcb\xe8\x71\xa8\xf1\x99\xad\xcd\x67\x9c\xbc\xf5\xab\x22\
    \xc3\x12\xf3\x76\xe4\xac\x8d\x76\x3b\xeb\x9e\xf0\xdd\xdb\x73\x43";

/// Reads and sends both blocks of a volume, and returns its sum at this world.
fn sum_at(world: &World, payload: Vec<u8>) -> Option<[u8; 32]>
    requires { length payload.items ≡ 4 }
{
    let run = Run::new(b"/dev/st0", "/usr", 0, 951782400, 0, 2, 2).ok()?;
    let mut source = Summed::new(ListBlocks::new(payload, 2, 2), true);
    source.begin_volume(&label(&run, 1, 0), 1, 0);
    let mut block = [0; 2];
    source.read(0, &mut block).ok()?;
    source.sent(0, &block);
    source.read(1, &mut block).ok()?;
    source.sent(1, &block);
    let count = VolumeCount {
        volume: 1,
        first: 0,
        count: 2,
    };
    world.counted_sum(&source, &run, count)
}

#[test]
fn returns_the_sum_of_a_volume(rt: HostRuntime) -> Result<(), Fail> {
    let drives = [DriveSpec {
        name: b"/dev/st0",
        capacity: 3100,
        reels: &[b"r1"],
    }];
    let world = new_world(rt.alloc(), &drives)?;
    let payload = Vec::from_slice(rt.alloc(), b"abcd")?;
    assert!(rt; sum_at(world.as_ref(), payload) == Some(*OF_TWO_BLOCKS));
    Ok(())
}
