//! Dates with their UTC text.
ghost use Rattle.std.specs.Prelude.{◌≡◌, ◌++◌, OnOk};
ghost use Rattle.rdump_list.specs.Dated.{dated, dated_id, dated_since, dated_volume};

use crate::verdict::push_count;
use dump_run::{DumpId, VolumeLabel};
use dumpdates::utc_text;
use std::alloc::AllocError;

/// Appends a text, a date, and its UTC text in brackets: ` date 951782400 (2000-02-29 00:00:00)`.
/// Appends no brackets after a date above `dumpdates::LAST_SECOND`.
///
/// Fails if an allocation fails.
pub fn push_date(text: &mut Vec<u8>, before: &[u8], date: u64) -> Result<(), AllocError>
    ensures { OnOk result (text.new.items ≡ text.old.items ++ dated before.now date) }
{
    push_count(text, before, date, b"")?;
    match utc_text(date) {
        Some(utc) => {
            text.extend_from_slice(b" (")?;
            text.extend_from_slice(utc.as_bytes())?;
            text.extend_from_slice(b")")
        }
        None => Ok(()),
    }
}

/// Appends the name, the level and the dates of a dump, each date with its UTC text in brackets.
/// The base date 0 gets no text: the dump has no base.
///
/// Fails if an allocation fails.
pub fn push_dated_id(text: &mut Vec<u8>, id: &DumpId) -> Result<(), AllocError>
    ensures { OnOk result (text.new.items ≡ text.old.items ++ dated_id id.now) }
{
    text.extend_from_slice(id.name().as_bytes())?;
    push_count(text, b" level ", u64::from(id.level()), b"")?;
    push_date(text, b" date ", id.date())?;
    push_since(text, id.since())
}

/// Appends the text that describes a volume: its dump, its number and its first block, and the
/// number and the size of its blocks. Dates have their UTC text in brackets.
///
/// Fails if an allocation fails.
pub fn push_dated_volume(
    text: &mut Vec<u8>,
    label: &VolumeLabel,
    blocks: u64,
    block_bytes: u64,
) -> Result<(), AllocError>
    ensures { OnOk result (text.new.items ≡ text.old.items ++ dated_volume label.now blocks block_bytes) }
{
    push_dated_id(text, label.id())?;
    push_count(text, b" volume ", u64::from(label.volume()), b"")?;
    push_count(text, b" first ", u64::from(label.first()), b"")?;
    push_count(text, b", ", blocks, b"")?;
    push_count(text, b" blocks of ", block_bytes, b" bytes")
}

fn push_since(text: &mut Vec<u8>, since: u64) -> Result<(), AllocError>
    ensures { OnOk result (text.new.items ≡ text.old.items ++ dated_since since) }
{
    if since == 0 {
        return text.extend_from_slice(b" since 0");
    }
    push_date(text, b" since ", since)
}
