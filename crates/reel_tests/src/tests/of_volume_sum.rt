//! Sums of record files and volumes. `sha256sum` of coreutils printed each sum here. The comment at
//! a sum shows how.

ghost use Rattle.std.specs.Prelude.{◌≡◌, ◌<◌, length};

use dump_run::{Blocks, ListBlocks, Run, VolumeCount, label};
use std::test::Fail;
use tape::{MediumFailed, MemoryMedium};
use volume_check::{EntryHasher, Summed, medium_sum};

/// The record file of a record `abc` and a mark.
static FILE: &[u8] = b"\x03\0\0\0abc\x03\0\0\0\0\0\0\0";

/// `printf '\3\0\0\0abc\3\0\0\0\0\0\0\0' | sha256sum`
static OF_FILE: &[u8; 32] = b"\x74\xbd\x99\x7c\xc6\x5a\x35\x6e\x36\x24\x03\x60\xfd\xd1\x4c\x8a\
    \xaa\x4b\xba\x90\x62\x82\x08\x51\x5d\x37\x25\xd6\xa5\xb9\xab\xf0";

/// The volume of the blocks `ab` and `cd`: its label begins with 58 bytes of text.
///
/// `(printf '\0\4\0\0name /usr\nlevel 0\ndate 951782400\nsince 0\nvolume 1\nfirst 0\n';`
/// `head -c 966 /dev/zero; printf '\0\4\0\0\2\0\0\0ab\2\0\0\0\2\0\0\0cd\2\0\0\0\0\0\0\0') |`
/// `sha256sum`
static OF_TWO_BLOCKS: &[u8; 32] =
    b"\x5c\x3b\xcb\xe8\x71\xa8\xf1\x99\xad\xcd\x67\x9c\xbc\xf5\xab\x22\
    \xc3\x12\xf3\x76\xe4\xac\x8d\x76\x3b\xeb\x9e\xf0\xdd\xdb\x73\x43";

/// The same with `\2\0\0\0ef\2\0\0\0` before the last four zeros.
static OF_THREE_BLOCKS: &[u8; 32] =
    b"\x11\x52\x1b\xff\x40\xca\x2f\x0c\x5f\x41\x76\xcb\x1c\xf7\x4b\x59\
    \x93\x88\x69\xc7\x65\x62\xef\xff\xb5\x6d\x7f\x17\xf8\x3d\x48\x24";

/// Returns the sums of the entries of `FILE` by a hasher and by its copy.
fn sums_of_entries() -> Option<([u8; 32], [u8; 32])> {
    let mut hasher = EntryHasher::new();
    hasher.record(b"abc");
    hasher.mark();
    let copy = hasher.clone().ok()?;
    Some((hasher.sum(), copy.sum()))
}

#[test]
fn sums_entries(rt: HostRuntime) {
    assert!(rt; sums_of_entries() == Some((*OF_FILE, *OF_FILE)));
}

/// Returns the sum of a medium in memory that has these bytes. Reads 4 bytes at a time.
fn sum_of_medium(bytes: Vec<u8>) -> Result<[u8; 32], MediumFailed> {
    let mut medium = MemoryMedium::from_bytes(bytes);
    medium_sum(&mut medium, &mut [0; 4])
}

#[test]
fn sums_a_medium(rt: HostRuntime) -> Result<(), Fail> {
    let bytes = Vec::from_slice(rt.alloc(), FILE)?;
    assert!(rt; sum_of_medium(bytes) == Ok(*OF_FILE));
    Ok(())
}

/// The sums of a volume of two blocks and of three blocks.
type Sums = (Option<[u8; 32]>, Option<[u8; 32]>);

/// Begins a volume, and reads and sends the block 0, the block `second` and the block 2. Returns the
/// sums of its volume if the volume has the first two blocks, and if it has all three.
fn sums_of_sent(payload: Vec<u8>, is_on: bool, second: u32) -> Option<Sums>
    requires sizes { length payload.items ≡ 6 }
    requires block { second < 3 }
{
    let run = Run::new(b"/dev/st0", "/usr", 0, 951782400, 0, 2, 3).ok()?;
    let mut source = Summed::new(ListBlocks::new(payload, 2, 3), is_on);
    source.begin_volume(&label(&run, 1, 0), 1, 0);
    let mut block = [0; 2];
    source.read(0, &mut block).ok()?;
    source.sent(0, &block);
    source.read(second, &mut block).ok()?;
    source.sent(second, &block);
    source.read(2, &mut block).ok()?;
    source.sent(2, &block);
    let (volume, first) = (1, 0);
    let two = source.sum(
        &run,
        VolumeCount {
            volume,
            first,
            count: 2,
        },
    );
    let three = source.sum(
        &run,
        VolumeCount {
            volume,
            first,
            count: 3,
        },
    );
    Some((two, three))
}

#[test]
fn sums_a_volume(rt: HostRuntime) -> Result<(), Fail> {
    let payload = Vec::from_slice(rt.alloc(), b"abcdef")?;
    let wanted = (Some(*OF_TWO_BLOCKS), Some(*OF_THREE_BLOCKS));
    assert!(rt; sums_of_sent(payload, true, 1) == Some(wanted));
    Ok(())
}

#[test]
fn sums_no_blocks_out_of_order(rt: HostRuntime) -> Result<(), Fail> {
    let payload = Vec::from_slice(rt.alloc(), b"abcdef")?;
    assert!(rt; sums_of_sent(payload, true, 2) == Some((None, None)));
    Ok(())
}

#[test]
fn sums_nothing_if_off(rt: HostRuntime) -> Result<(), Fail> {
    let payload = Vec::from_slice(rt.alloc(), b"abcdef")?;
    assert!(rt; sums_of_sent(payload, false, 1) == Some((None, None)));
    Ok(())
}
