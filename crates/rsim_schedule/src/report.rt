//! The report of a world.
ghost use Rattle.std.specs.Prelude.{◌≡◌, ◌++◌, [], codes, decimal, map, length, IfOk, OnOk};
ghost use Rattle.std.specs.List.{flat_map};
ghost use Rattle.drives.specs.TapeLibrary.{names_of};
ghost use Rattle.dumpdates.specs.Text.{written};
ghost use Rattle.tape_world.specs.Telling.{plain_count};
ghost use Rattle.rsim_schedule.specs.Drives.{plain_line};
ghost use Rattle.rsim_schedule.specs.Report.{report_text, reel_line, stack_line, count_line, names_text, length_text, entry_text, entries_of_reel};

use crate::drive_line::DriveLine;
use drives::ListedReel;
use itoa::Buffer;
use std::alloc::{AllocError, Global};
use tape_world::{CountedVolume, World};

/// Returns the report of a world: the entries of each reel of these drives, their stacks, the bin,
/// the counted volumes, and dumpdates. Fails if an allocation fails.
pub(crate) fn report_of(
    alloc: Global,
    world: &World,
    drives: &[DriveLine<'_>],
) -> Result<Vec<u8>, AllocError>
    ensures { IfOk result (λ text. text.items ≡ report_text (map plain_line drives.now) world.now) }
{
    let mut text = Vec::new(alloc);
    push_report(&mut text, world, drives)?;
    Ok(text)
}

/// Appends the whole report. `text` must be empty.
fn push_report(
    text: &mut Vec<u8>,
    world: &World,
    drives: &[DriveLine<'_>],
) -> Result<(), AllocError>
    requires { text.old.items ≡ [] }
    ensures { OnOk result (text.new.items ≡ report_text (map plain_line drives.now) world.now) }
{
    push_all_reels(text, world, drives)?;
    push_stacks(text, world, drives)?;
    push_names(text, "bin", world.bin())?;
    push_counts(text, world)?;
    push_dates(text, world)?;
    Ok(())
}

/// Appends a line for each reel of these drives.
fn push_all_reels(
    text: &mut Vec<u8>,
    world: &World,
    drives: &[DriveLine<'_>],
) -> Result<(), AllocError>
    ensures { OnOk result (text.new.items ≡ text.old.items
        ++ flat_map (λ d. flat_map (reel_line world.now) d.reels) (map plain_line drives.now)) }
{
    for drive in drives {
        push_reels(text, world, drive.reels.as_slice())?;
    }
    Ok(())
}

fn push_reels(text: &mut Vec<u8>, world: &World, reels: &[&[u8]]) -> Result<(), AllocError>
    ensures { OnOk result (text.new.items ≡ text.old.items ++ flat_map (reel_line world.now) (map (λ n. n.now) reels.now)) }
{
    for reel in reels {
        push_reel(text, world, reel)?;
    }
    Ok(())
}

/// Appends the line of a reel: its name, and for each entry `M` for a mark, or `R` and the length
/// of a record in bytes.
fn push_reel(text: &mut Vec<u8>, world: &World, reel: &[u8]) -> Result<(), AllocError>
    ensures { OnOk result (text.new.items ≡ text.old.items ++ reel_line world.now reel.now) }
{
    push_text(text, "reel ")?;
    text.extend_from_slice(reel)?;
    push_entries(text, world, reel)?;
    push_text(text, "\n")
}

/// Appends the entries of a reel, in order.
fn push_entries(text: &mut Vec<u8>, world: &World, reel: &[u8]) -> Result<(), AllocError>
    ensures { OnOk result (text.new.items ≡ text.old.items ++ flat_map entry_text (entries_of_reel world.now reel.now)) }
{
    for place in 0..usize::MAX {
        match world.entry(reel, place, &mut []) {
            Some(length) => push_entry(text, length)?,
            None => return Ok(()),
        }
    }
    Err(AllocError)
}

/// Appends an entry of this length. A mark has length 0.
fn push_entry(text: &mut Vec<u8>, length: usize) -> Result<(), AllocError>
    ensures { OnOk result (text.new.items ≡ text.old.items ++ length_text length) }
{
    if length == 0 {
        return push_text(text, " M");
    }
    push_number(text, " R", length as u64)
}

fn push_stacks(
    text: &mut Vec<u8>,
    world: &World,
    drives: &[DriveLine<'_>],
) -> Result<(), AllocError>
    ensures { OnOk result (text.new.items ≡ text.old.items ++ flat_map (λ d. stack_line world.now d.name) (map plain_line drives.now)) }
{
    for drive in drives {
        push_stack(text, world, drive.device)?;
    }
    Ok(())
}

/// Appends the line of a drive's stack. It has no names if there is no such drive.
fn push_stack(text: &mut Vec<u8>, world: &World, device: &[u8]) -> Result<(), AllocError>
    ensures { OnOk result (text.new.items ≡ text.old.items ++ stack_line world.now device.now) }
{
    push_text(text, "stack ")?;
    text.extend_from_slice(device)?;
    match world.stack(device) {
        Some(reels) => push_names(text, "", reels),
        None => push_names(text, "", &[]),
    }
}

/// Appends the text `keyword`, the names of reels, and the end of the line.
fn push_names(text: &mut Vec<u8>, keyword: &str, reels: &[ListedReel]) -> Result<(), AllocError>
    ensures { OnOk result (text.new.items ≡ text.old.items ++ keyword.now ++ names_text (names_of reels.now) ++ codes "\n") }
{
    push_text(text, keyword)?;
    for reel in reels {
        push_name(text, reel.name())?;
    }
    push_text(text, "\n")
}

fn push_name(text: &mut Vec<u8>, name: &[u8]) -> Result<(), AllocError>
    ensures { OnOk result (text.new.items ≡ text.old.items ++ (codes " " ++ name.now)) }
{
    push_text(text, " ")?;
    text.extend_from_slice(name)
}

fn push_counts(text: &mut Vec<u8>, world: &World) -> Result<(), AllocError>
    ensures { OnOk result (text.new.items ≡ text.old.items ++ flat_map count_line world.now.counts) }
{
    let counts = world.counts();
    for place in 0..counts.len() {
        if let Some(count) = counts.get(place) {
            push_count(text, count)?;
        }
    }
    Ok(())
}

fn push_count(text: &mut Vec<u8>, count: CountedVolume<'_>) -> Result<(), AllocError>
    ensures { OnOk result (text.new.items ≡ text.old.items ++ count_line (plain_count count.entry)) }
{
    push_number(text, "counted ", count.run as u64)?;
    push_number(text, " ", u64::from(count.volume))?;
    push_number(text, " ", u64::from(count.first))?;
    push_number(text, " ", u64::from(count.count))?;
    push_name(text, count.reel)?;
    push_text(text, "\n")
}

/// Appends the heading of dumpdates and its lines.
fn push_dates(text: &mut Vec<u8>, world: &World) -> Result<(), AllocError>
    ensures { OnOk result (text.new.items ≡ text.old.items ++ codes "dumpdates\n" ++ written world.now.dates) }
{
    push_text(text, "dumpdates\n")?;
    match world.dates().text() {
        Ok(dates) => text.extend_from_slice(&dates),
        Err(_) => Err(AllocError),
    }
}

/// Appends the text `before` and a number after it.
fn push_number(text: &mut Vec<u8>, before: &str, number: u64) -> Result<(), AllocError>
    ensures { OnOk result (text.new.items ≡ text.old.items ++ before.now ++ decimal number) }
{
    let mut digits = Buffer::new();
    push_text(text, before)?;
    push_text(text, digits.format(number))
}

fn push_text(text: &mut Vec<u8>, more: &str) -> Result<(), AllocError>
    ensures { OnOk result (text.new.items ≡ text.old.items ++ more.now) }
{
    text.extend_from_slice(more.as_bytes())
}
