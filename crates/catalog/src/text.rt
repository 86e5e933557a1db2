//! Appends the text of a line.

ghost use Rattle.std.specs.Prelude.{◌≡◌, ◌++◌, OnOk, decimal};
ghost use Rattle.hex.specs.Hex.{encode_lower};
ghost use Rattle.catalog.specs.DumpLines.{begun_text, finished_text, id_text};
ghost use Rattle.catalog.specs.Line.{line_text};
ghost use Rattle.catalog.specs.SumLine.{sum_line, volume_text};

use crate::{BegunLine, CatalogLine, FinishedLine, SumLine};
use dump_run::{DumpId, VolumeLabel};
use hex::encode_to_slice;
use itoa::Buffer;
use std::alloc::AllocError;

/// The length of a sum in hexadecimal digits.
pub(crate) const SUM_DIGITS: usize = 64;

/// Appends the text of a volume as its line in a catalog has it, dates in seconds only: the fields
/// of the label, and the number and the size of the blocks, as
/// `/usr level 0 date 7 since 5 volume 1 first 0, 3 blocks of 64 bytes`.
///
/// If an allocation fails, part of the text may have been appended.
pub fn push_volume(
    text: &mut Vec<u8>,
    label: &VolumeLabel,
    blocks: u64,
    block_bytes: u64,
) -> Result<(), AllocError>
    ensures { OnOk result (text.new.items ≡ text.old.items ++ volume_text label.now blocks block_bytes) }
{
    text.extend_from_slice(label.name().as_bytes())?;
    push_number(text, b" level ", u64::from(label.level()))?;
    push_number(text, b" date ", label.date())?;
    push_number(text, b" since ", label.since())?;
    push_number(text, b" volume ", u64::from(label.volume()))?;
    push_number(text, b" first ", u64::from(label.first()))?;
    push_number(text, b", ", blocks)?;
    push_number(text, b" blocks of ", block_bytes)?;
    text.extend_from_slice(b" bytes")?;
    Ok(())
}

/// Appends the text of a line, with a line feed.
///
/// - A dump that begins: `begun`, the dump, and the length of its payload.
/// - A counted volume: the sum in lower-case hexadecimal, two spaces, the volume (see
///   `push_volume`), and the size of the record file.
/// - A finished dump: `finished`, the dump, the number of volumes, the number and the size of the
///   blocks, and the length of its payload.
///
/// If an allocation fails, part of the text may have been appended.
pub fn push_line(text: &mut Vec<u8>, line: &CatalogLine) -> Result<(), AllocError>
    ensures { OnOk result (text.new.items ≡ text.old.items ++ line_text line.now) }
{
    match line {
        CatalogLine::Begun(begun) => push_begun(text, begun),
        CatalogLine::Volume(volume) => push_volume_line(text, volume),
        CatalogLine::Finished(finished) => push_finished(text, finished),
    }
}

fn push_begun(text: &mut Vec<u8>, begun: &BegunLine) -> Result<(), AllocError>
    ensures { OnOk result (text.new.items ≡ text.old.items ++ begun_text begun.now) }
{
    text.extend_from_slice(b"begun     ")?;
    push_id(text, begun.id())?;
    push_number(text, b": ", begun.bytes())?;
    text.extend_from_slice(b" bytes\n")
}

fn push_finished(text: &mut Vec<u8>, finished: &FinishedLine) -> Result<(), AllocError>
    ensures { OnOk result (text.new.items ≡ text.old.items ++ finished_text finished.now) }
{
    text.extend_from_slice(b"finished  ")?;
    push_id(text, finished.id())?;
    push_number(text, b": ", u64::from(finished.volumes()))?;
    push_number(text, b" volumes, ", u64::from(finished.blocks()))?;
    push_number(text, b" blocks of ", u64::from(finished.block_bytes()))?;
    push_number(text, b" bytes, ", finished.bytes())?;
    text.extend_from_slice(b" bytes\n")?;
    Ok(())
}

fn push_id(text: &mut Vec<u8>, id: &DumpId) -> Result<(), AllocError>
    ensures { OnOk result (text.new.items ≡ text.old.items ++ id_text id.now) }
{
    text.extend_from_slice(id.name().as_bytes())?;
    push_number(text, b" level ", u64::from(id.level()))?;
    push_number(text, b" date ", id.date())?;
    push_number(text, b" since ", id.since())
}

fn push_volume_line(text: &mut Vec<u8>, line: &SumLine) -> Result<(), AllocError>
    ensures { OnOk result (text.new.items ≡ text.old.items ++ sum_line line.now) }
{
    push_hex(text, line.sum())?;
    text.extend_from_slice(b"  ")?;
    push_volume(
        text,
        line.label(),
        u64::from(line.blocks()),
        u64::from(line.block_bytes()),
    )?;
    push_number(text, b", ", line.bytes())?;
    text.extend_from_slice(b" bytes\n")?;
    Ok(())
}

fn push_number(text: &mut Vec<u8>, word: &[u8], number: u64) -> Result<(), AllocError>
    ensures { OnOk result (text.new.items ≡ text.old.items ++ (word.now ++ decimal number)) }
{
    let mut digits = Buffer::new();
    text.extend_from_slice(word)?;
    text.extend_from_slice(digits.format(number).as_bytes())
}

fn push_hex(text: &mut Vec<u8>, sum: &[u8; 32]) -> Result<(), AllocError>
    ensures { OnOk result (text.new.items ≡ text.old.items ++ encode_lower sum.now) }
{
    let mut digits = [0; SUM_DIGITS];
    prove!(encode_to_slice(sum.as_slice(), &mut digits).is_ok());
    text.extend_from_slice(&digits)
}
