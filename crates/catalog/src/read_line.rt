//! Reads the line at the beginning of a text. The caller prints the line that it gets and compares
//! the texts, so the functions promise nothing for a text that is not a line.
ghost use Rattle.std.specs.Prelude.{◌≡◌, ◌<◌, ◌⊎◌, ◌↔◌, ◌++◌, ℕ, IsTrue, List, Some};
ghost use Rattle.dump_run.specs.DumpId.{PlainId, IsDumpId};
ghost use Rattle.catalog.specs.DumpLines.{PlainFinished, IsFinished};
ghost use Rattle.catalog.specs.Reading.{CutsId, ReadsBegun, ReadsFinished, ReadsLine, ReadsVolume};

use crate::fields::{cut, cut_fields, cut_number};
use crate::{BegunLine, CatalogLine, FinishedLine, SumLine};
use dump_run::DumpId;

/// The first word of a dump that begins.
const BEGUN: &[u8] = b"begun     ";

/// The first word of a finished dump.
const FINISHED: &[u8] = b"finished  ";

pub(crate) fn read_line(bytes: &[u8]) -> Option<CatalogLine>
    ensures { ReadsLine bytes.now result }
{
    if begins_with(bytes, BEGUN) {
        return Some(CatalogLine::Begun(read_begun(bytes)?));
    }
    if begins_with(bytes, FINISHED) {
        return Some(CatalogLine::Finished(read_finished(bytes)?));
    }
    Some(CatalogLine::Volume(read_volume(bytes)?))
}

fn read_volume(bytes: &[u8]) -> Option<SumLine>
    ensures { ReadsVolume bytes.now result }
{
    cut_fields(bytes).line()
}

fn read_begun(bytes: &[u8]) -> Option<BegunLine>
    ensures { ReadsBegun bytes.now result }
{
    let (id, rest) = cut_id(bytes, BEGUN, b':')?;
    let (bytes, _) = cut_number(rest, b" ", b' ');
    Some(BegunLine::new(id, bytes))
}

fn read_finished(bytes: &[u8]) -> Option<FinishedLine>
    ensures { ReadsFinished bytes.now result }
{
    let (id, rest) = cut_id(bytes, FINISHED, b':')?;
    let (volumes, rest) = cut_number(rest, b" ", b' ');
    let (blocks, rest) = cut_number(rest, b"volumes, ", b' ');
    let (block_bytes, rest) = cut_number(rest, b"blocks of ", b' ');
    let (bytes, _) = cut_number(rest, b"bytes, ", b' ');
    finished_of(id, volumes, blocks, block_bytes, bytes)
}

fn finished_of(
    id: DumpId,
    volumes: u64,
    blocks: u64,
    block_bytes: u64,
    bytes: u64,
) -> Option<FinishedLine>
    ensures { (f : PlainFinished) → IsFinished f → id ≡ f.id → volumes ≡ f.volumes → blocks ≡ f.blocks → block_bytes ≡ f.block_bytes → bytes ≡ f.bytes →
        result ≡ Some f }
{
    let volumes = u32::try_from(volumes).ok()?;
    let blocks = u32::try_from(blocks).ok()?;
    let block_bytes = u32::try_from(block_bytes).ok()?;
    FinishedLine::new(id, volumes, blocks, block_bytes, bytes)
}

fn cut_id<'a>(bytes: &'a [u8], word: &[u8], end: u8) -> Option<(DumpId, &'a [u8])>
    requires { (end < 48) ⊎ (57 < end) }
    ensures { CutsId bytes.now word.now end result }
{
    let (name, rest) = cut(bytes, word, b' ');
    let (level, rest) = cut_number(rest, b"level ", b' ');
    let (date, rest) = cut_number(rest, b"date ", b' ');
    let (since, rest) = cut_number(rest, b"since ", end);
    let id = id_of(name, level, date, since)?;
    Some((id, rest))
}

fn id_of(name: &[u8], level: u64, date: u64, since: u64) -> Option<DumpId>
    ensures { (d : PlainId) → IsDumpId d → name.now ≡ d.name → level ≡ d.level → date ≡ d.date → since ≡ d.since → result ≡ Some d }
{
    let Ok(name) = str::from_utf8(name) else {
        return None;
    };
    let level = u8::try_from(level).ok()?;
    DumpId::new(name, level, date, since)
}

fn begins_with(bytes: &[u8], word: &[u8]) -> bool
    ensures { IsTrue result ↔ ((rest : List ℕ) × (bytes.now ≡ word.now ++ rest)) }
{
    match bytes.strip_prefix(word) {
        Some(_) => true,
        None => false,
    }
}
