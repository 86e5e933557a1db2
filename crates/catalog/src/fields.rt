//! Cuts a line into its fields. As in `read_line`, nothing is promised for a text that is not a
//! line.
ghost use Rattle.std.specs.Prelude.{◌≡◌, ◌<◌, ◌⊎◌, ℕ, List, Some};
ghost use Rattle.hex.specs.Hex.{encode_lower};
ghost use Rattle.dump_run.specs.CheckpointParts.{IsCut};
ghost use Rattle.catalog.specs.SumLine.{IsSum};
ghost use Rattle.catalog.specs.Reading.{CutsField, CutsNumber, FindsFields, MakesLabel, MakesLine};

use crate::SumLine;
use crate::number::number;
use dump_run::VolumeLabel;
use hex::FromHex;

/// The fields of a line, as cut from its text.
#[derive(Drop)]
pub(crate) struct Fields<'a> {
    sum: &'a [u8],
    name: &'a [u8],
    level: u64,
    date: u64,
    since: u64,
    volume: u64,
    first: u64,
    blocks: u64,
    block_bytes: u64,
}

pub(crate) fn cut_fields(bytes: &[u8]) -> Fields<'_>
    ensures { FindsFields bytes.now result }
{
    let (sum, rest) = cut(bytes, b"", b' ');
    let (name, rest) = cut(rest, b" ", b' ');
    let (level, rest) = cut_number(rest, b"level ", b' ');
    let (date, rest) = cut_number(rest, b"date ", b' ');
    let (since, rest) = cut_number(rest, b"since ", b' ');
    let (volume, rest) = cut_number(rest, b"volume ", b' ');
    let (first, rest) = cut_number(rest, b"first ", b',');
    let (blocks, rest) = cut_number(rest, b" ", b' ');
    let (block_bytes, _) = cut_number(rest, b"blocks of ", b' ');
    Fields {
        sum,
        name,
        level,
        date,
        since,
        volume,
        first,
        blocks,
        block_bytes,
    }
}

impl Fields<'_> {
    pub(crate) fn line(&self) -> Option<SumLine>
        ensures { MakesLine self.now result }
    {
        let sum = sum_of(self.sum)?;
        let label = self.label()?;
        let blocks = u32::try_from(self.blocks).ok()?;
        let block_bytes = u32::try_from(self.block_bytes).ok()?;
        SumLine::new(sum, label, blocks, block_bytes)
    }

    fn label(&self) -> Option<VolumeLabel>
        ensures { MakesLabel self.now result }
    {
        let Ok(name) = str::from_utf8(self.name) else {
            return None;
        };
        let level = u8::try_from(self.level).ok()?;
        let volume = u32::try_from(self.volume).ok()?;
        let first = u32::try_from(self.first).ok()?;
        VolumeLabel::new(name, level, self.date, self.since, volume, first)
    }
}

fn sum_of(digits: &[u8]) -> Option<[u8; 32]>
    ensures { (sum : List ℕ) → IsSum sum → digits.now ≡ encode_lower sum → result ≡ Some sum }
{
    <[u8; 32] as FromHex>::from_hex(digits).ok()
}

/// Returns the text after `word` up to the first `end`, and the bytes after that `end`. Returns two
/// empty texts if `bytes` have no such beginning.
pub(crate) fn cut<'a>(bytes: &'a [u8], word: &[u8], end: u8) -> (&'a [u8], &'a [u8])
    ensures { CutsField bytes.now word.now end result }
{
    let Some(after) = bytes.strip_prefix(word) else {
        return (b"", b"");
    };
    let Some(parts) = split_at_byte(after, end) else {
        return (b"", b"");
    };
    parts
}

fn split_at_byte(text: &[u8], byte: u8) -> Option<(&[u8], &[u8])>
    ensures { IsCut byte text.now result }
{
    for at in 0..text.len() {
        if text[at] == byte {
            return Some((&text[..at], &text[at + 1..]));
        }
    }
    None
}

pub(crate) fn cut_number<'a>(bytes: &'a [u8], word: &[u8], end: u8) -> (u64, &'a [u8])
    requires { (end < 48) ⊎ (57 < end) }
    ensures { CutsNumber bytes.now word.now end result }
{
    let (text, rest) = cut(bytes, word, end);
    (number(text), rest)
}
