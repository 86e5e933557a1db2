//! Reads the fields of a checkpoint or a label: each is a line of a keyword and a text. A function
//! `.._field` returns what the first line contains and the bytes after it, or None.
ghost use Rattle.std.specs.Prelude.{◌<◌, ◌^◌, IfSome, IsUtf8, codes};
ghost use Rattle.dumpdates.specs.Entry.{IsName};
ghost use Rattle.dump_run.specs.Run.{IsDevice};
ghost use Rattle.dump_run.specs.CheckpointParts.{FindsText, FindsNumber, FindsCount, FindsTitle, IsCountText, NoFeed};

use super::first_byte::cut;
use super::number::number;
use crate::run::is_device;
use crate::{BLOCKS_LIMIT, VolumeCount};
use dumpdates::is_name;

const COUNT_LIMIT: u64 = BLOCKS_LIMIT as u64;

fn text_field<'a>(bytes: &'a [u8], word: &[u8]) -> Option<(&'a [u8], &'a [u8])>
    ensures { FindsText word.now NoFeed bytes.now result }
{
    let after = bytes.strip_prefix(word)?;
    cut(after, b'\n')
}

pub(crate) fn number_field<'a>(
    bytes: &'a [u8],
    word: &[u8],
    least: u64,
    most: u64,
) -> Option<(u64, &'a [u8])>
    requires { most < 2 ^ 64 }
    ensures { FindsNumber word.now least most bytes.now result }
{
    let (text, more) = text_field(bytes, word)?;
    let n = number(text, least, most)?;
    Some((n, more))
}

pub(super) fn title(bytes: &[u8]) -> Option<&[u8]>
    ensures { FindsTitle bytes.now result }
{
    bytes.strip_prefix(b"rdump 1\n")
}

pub(super) fn device_field(bytes: &[u8]) -> Option<(&[u8], &[u8])>
    ensures { FindsText (codes "device ") IsDevice bytes.now result }
{
    let (device, more) = text_field(bytes, b"device ")?;
    if !is_device(device) {
        return None;
    }
    Some((device, more))
}

pub(crate) fn name_field<'a>(bytes: &'a [u8], word: &[u8]) -> Option<(&'a [u8], &'a [u8])>
    ensures found { FindsText word.now IsName bytes.now result }
    ensures text { IfSome result (λ p. IsUtf8 p.0.now) }
{
    let (name, more) = text_field(bytes, word)?;
    if !is_name(name) {
        return None;
    }
    Some((name, more))
}

/// Reads the three numbers of a count, each 0 to `BLOCKS_LIMIT`.
fn count_of(text: &[u8]) -> Option<VolumeCount>
    ensures { IsCountText text.now result }
{
    let (volume, after) = cut(text, b' ')?;
    let (first, count) = cut(after, b' ')?;
    Some(VolumeCount {
        volume: number(volume, 0, COUNT_LIMIT)? as u32,
        first: number(first, 0, COUNT_LIMIT)? as u32,
        count: number(count, 0, COUNT_LIMIT)? as u32,
    })
}

pub(super) fn count_field(bytes: &[u8]) -> Option<(VolumeCount, &[u8])>
    ensures { FindsCount bytes.now result }
{
    let (text, more) = text_field(bytes, b"counted ")?;
    let count = count_of(text)?;
    Some((count, more))
}
