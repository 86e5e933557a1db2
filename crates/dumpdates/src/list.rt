//! A list of stored entries, and how an entry is added or replaced.

ghost use Rattle.std.specs.Prelude.{◌≡◌, ◌+◌, ◌≤◌, ◌∷◌, ◌++◌, [], Some, length, take, drop, filter, position, OnOk, OnErr};
ghost use Rattle.dumpdates.specs.Dates as spec;
ghost use Rattle.dumpdates.specs.Stored.{plain_entry, plain_stored, plain_all, is_other};

use crate::Entry;
use crate::stored::Stored;
use std::alloc::{AllocError, Global};

pub(crate) fn position_of(entries: &[Stored], entry: Entry<'_>) -> Option<usize>
    ensures { result ≡ position (λ e. spec.is_same (plain_entry entry.entry) (plain_stored e)) entries.now }
{
    entries.iter().position(|other| other.is_same(entry))
}

/// Appends an entry. If an allocation fails, the list is unchanged.
pub(crate) fn append(
    alloc: Global,
    entries: &mut Vec<Stored>,
    entry: Entry<'_>,
) -> Result<(), AllocError>
    ensures last { OnOk result (plain_all entries.new.items ≡ plain_all entries.old.items ++ plain_entry entry.entry ∷ []) }
    ensures unchanged { OnErr result (entries.new.items ≡ entries.old.items) }
{
    entries.reserve(1)?;
    let last = Stored::new(alloc, entry)?;
    entries.push_reserved(last);
    Ok(())
}

/// Sets the date of the entry at `at`, the first with the name and level of `entry`, and removes
/// any later ones with them.
pub(crate) fn replace(entries: &mut Vec<Stored>, at: usize, entry: Entry<'_>)
    requires { position (λ e. spec.is_same (plain_entry entry) (plain_stored e)) entries.old.items ≡ Some at }
    ensures { plain_all entries.new.items ≡ spec.entered (plain_all entries.old.items) (plain_entry entry.entry) }
{
    entries[at].date = entry.date;
    drop_same(entries, at + 1, entry);
}

fn drop_same(entries: &mut Vec<Stored>, from: usize, entry: Entry<'_>)
    requires { from ≤ length entries.old.items }
    ensures { entries.new.items ≡ take from entries.old.items
        ++ filter (is_other (plain_entry entry.entry)) (drop from entries.old.items) }
{
    let (_, later) = entries.as_mut_slice().split_at_mut(from);
    let kept = keep_others(later, entry);
    entries.truncate(from + kept);
}

/// Moves the entries of other names or levels to the front, in their order, and returns how many
/// there are.
fn keep_others(entries: &mut [Stored], entry: Entry<'_>) -> usize
    ensures kept { take result entries.new ≡ filter (is_other (plain_entry entry.entry)) entries.old }
    ensures within { result ≤ length entries.new }
{
    let mut kept = 0;
    for at in 0..entries.len() {
        if !entries[at].is_same(entry) {
            entries.swap(kept, at);
            kept += 1;
        }
    }
    kept
}
