//! The verdict on a reel, in words.
ghost use Rattle.std.specs.Prelude.{◌≡◌, ◌++◌, ◌↔◌, IsTrue, OnOk, codes, decimal};
ghost use Rattle.volume_check.specs.declared.holding.VolumeEnd.TheVariants.{OneMark};
ghost use Rattle.rdump_list.specs.Verdict as spec;
ghost use Rattle.rdump_list.specs.Verdict.{IsWhole, volume_verdict, holding_verdict, is_end, tail_verdict, verdict_of};

use itoa::Buffer;
use std::alloc::AllocError;
use volume_check::{Holding, ReelContents, Volume, VolumeEnd};

/// Returns whether a reel is whole: a volume with one mark after its blocks, and no byte after the
/// mark. The verdict on these reels, and on no others, is `whole`.
pub fn is_whole(contents: &ReelContents) -> bool
    ensures holds { IsTrue result ↔ IsWhole contents.now }
    ensures said { IsTrue result ↔ (verdict_of contents.now ≡ codes "whole") }
{
    contents.tail == 0 && has_one_mark(&contents.holding)
}

/// Appends the verdict on a reel: `whole`; `empty`; `no mark: 3 whole blocks`;
/// `more after the mark`; or `not a volume of rdump`.
///
/// If bytes follow the last readable entry, the verdict ends with their number:
/// `no mark: 3 whole blocks, tail of 5 bytes`. This replaces `whole` and `empty`:
/// `tail of 5 bytes`.
///
/// Fails if an allocation fails.
pub fn push_verdict(text: &mut Vec<u8>, contents: &ReelContents) -> Result<(), AllocError>
    ensures { OnOk result (text.new.items ≡ text.old.items ++ verdict_of contents.now) }
{
    if contents.tail == 0 {
        return push_holding(text, &contents.holding);
    }
    if tail_replaces(&contents.holding) {
        return push_tail(text, contents.tail);
    }
    push_holding(text, &contents.holding)?;
    text.extend_from_slice(b", ")?;
    push_tail(text, contents.tail)
}

fn has_one_mark(holding: &Holding) -> bool
    ensures { result ≡ spec.is_one_mark holding.now }
{
    match holding {
        Holding::Volume(volume) => is_one_mark(volume.end),
        Holding::Empty | Holding::Foreign => false,
    }
}

fn tail_replaces(holding: &Holding) -> bool
    ensures { result ≡ spec.tail_replaces holding.now }
{
    match holding {
        Holding::Empty => true,
        Holding::Volume(volume) => is_one_mark(volume.end),
        Holding::Foreign => false,
    }
}

pub(crate) fn is_one_mark(end: VolumeEnd) -> bool
    ensures value { result ≡ is_end end }
    ensures one { IsTrue result ↔ (end ≡ OneMark) }
{
    match end {
        VolumeEnd::NoMark => false,
        VolumeEnd::OneMark => true,
        VolumeEnd::MoreAfterMark => false,
    }
}

fn push_holding(text: &mut Vec<u8>, holding: &Holding) -> Result<(), AllocError>
    ensures { OnOk result (text.new.items ≡ text.old.items ++ holding_verdict holding.now) }
{
    match holding {
        Holding::Empty => text.extend_from_slice(b"empty"),
        Holding::Volume(volume) => push_end(text, volume),
        Holding::Foreign => text.extend_from_slice(b"not a volume of rdump"),
    }
}

fn push_end(text: &mut Vec<u8>, volume: &Volume) -> Result<(), AllocError>
    ensures { OnOk result (text.new.items ≡ text.old.items ++ volume_verdict volume.now.end volume.now.blocks) }
{
    match volume.end {
        VolumeEnd::NoMark => push_count(text, b"no mark: ", volume.blocks, b" whole blocks"),
        VolumeEnd::OneMark => text.extend_from_slice(b"whole"),
        VolumeEnd::MoreAfterMark => text.extend_from_slice(b"more after the mark"),
    }
}

fn push_tail(text: &mut Vec<u8>, bytes: u64) -> Result<(), AllocError>
    ensures { OnOk result (text.new.items ≡ text.old.items ++ tail_verdict bytes) }
{
    push_count(text, b"tail of ", bytes, b" bytes")
}

pub(crate) fn push_count(
    text: &mut Vec<u8>,
    before: &[u8],
    number: u64,
    after: &[u8],
) -> Result<(), AllocError>
    ensures { OnOk result (text.new.items ≡ text.old.items ++ (before.now ++ decimal number ++ after.now)) }
{
    let mut digits = Buffer::new();
    text.extend_from_slice(before)?;
    text.extend_from_slice(digits.format(number).as_bytes())?;
    text.extend_from_slice(after)
}
