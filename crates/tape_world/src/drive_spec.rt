//! The drives of a new world.
ghost use Rattle.std.specs.Prelude.{◌≡◌, ◌↔◌, true, map};
ghost use Rattle.std.specs.List.{flat_map, list_any};
ghost use Rattle.std.specs.Str.{bytes_eq};
ghost use Rattle.drives.specs.Arranging.{are_distinct, is_repeated};
ghost use Rattle.world_model.specs.First.{AreGoodDrives};
ghost use Rattle.tape_world.specs.Making.{plain_drive_spec, reels_of, reel_again, names_again};

use drives::DRIVE_LIMIT;

/// A drive of a new world.
#[derive(Clone, Copy)]
pub struct DriveSpec<'a> {
    /// The name that clients open.
    pub name: &'a [u8],
    /// The capacity of each of its reels in bytes, counted as in the reel's record file.
    pub capacity: u64,
    /// The names of its reels, which are blank, in the order of its stack.
    pub reels: &'a [&'a [u8]],
}

/// Returns whether a world can be made with the given drives. There must be 1 to
/// `drives::DRIVE_LIMIT` (64). No two drives, and no two of all their reels, can have the same
/// name.
#[tactic(auto, using(std::proofs::lemmas::Grind::common_steps, crate::proofs::Apart::are_good, crate::proofs::Apart::names_alike))]
pub fn good_drives(drives: &[DriveSpec<'_>]) -> bool
    ensures { (result ≡ true) ↔ AreGoodDrives (map plain_drive_spec drives.now) }
{
    if drives.is_empty() || DRIVE_LIMIT < drives.len() {
        return false;
    }
    names_differ(drives) && reels_differ(drives)
}

#[tactic(auto, using(drives::proofs::Arranging::differ_yet))]
fn names_differ(drives: &[DriveSpec<'_>]) -> bool
    ensures { result ≡ are_distinct (map (λ d. d.name.now) drives.now) }
{
    for place in 0..drives.len() {
        if is_name_again(&drives[place..]) {
            return false;
        }
    }
    true
}

/// Whether the name of the first drive is that of another.
fn is_name_again(drives: &[DriveSpec<'_>]) -> bool
    ensures { result ≡ is_repeated (map (λ d. d.name.now) drives.now) }
{
    let Some((first, others)) = drives.split_first() else {
        return false;
    };
    any_named(others, first.name)
}

fn any_named(drives: &[DriveSpec<'_>], name: &[u8]) -> bool
    ensures { result ≡ list_any (λ d. bytes_eq name.now d.name.now) drives.now }
{
    for drive in drives {
        if name == drive.name {
            return true;
        }
    }
    false
}

#[tactic(auto, using(crate::proofs::Apart::reels_no, crate::proofs::Apart::reels_yet))]
fn reels_differ(drives: &[DriveSpec<'_>]) -> bool
    ensures { result ≡ are_distinct (flat_map reels_of drives.now) }
{
    for place in 0..drives.len() {
        if is_reel_again(&drives[place..]) {
            return false;
        }
    }
    true
}

/// Whether a reel of the first drive has the name of another reel.
fn is_reel_again(drives: &[DriveSpec<'_>]) -> bool
    ensures { result ≡ reel_again drives.now }
{
    let Some((first, others)) = drives.split_first() else {
        return false;
    };
    !all_differ(first.reels) || any_shared(first.reels, others)
}

#[tactic(auto, using(drives::proofs::Arranging::differ_yet))]
fn all_differ(names: &[&[u8]]) -> bool
    ensures { result ≡ are_distinct (map (λ n. n.now) names.now) }
{
    for place in 0..names.len() {
        if occurs_again(&names[place..]) {
            return false;
        }
    }
    true
}

/// Whether the first of the names is among the others.
fn occurs_again(names: &[&[u8]]) -> bool
    ensures { result ≡ is_repeated (map (λ n. n.now) names.now) }
{
    let Some((name, others)) = names.split_first() else {
        return false;
    };
    any_is(others, name)
}

fn any_is(names: &[&[u8]], name: &[u8]) -> bool
    ensures { result ≡ list_any (λ n. bytes_eq name.now n.now) names.now }
{
    for other in names {
        if name == *other {
            return true;
        }
    }
    false
}

/// Whether one of the names is that of a reel of these drives.
fn any_shared(names: &[&[u8]], drives: &[DriveSpec<'_>]) -> bool
    ensures { result ≡ list_any (λ n. names_again drives.now n.now) names.now }
{
    for name in names {
        if any_has(drives, name) {
            return true;
        }
    }
    false
}

/// Whether a reel of one of these drives has that name.
fn any_has(drives: &[DriveSpec<'_>], name: &[u8]) -> bool
    ensures { result ≡ names_again drives.now name.now }
{
    for drive in drives {
        if any_is(drive.reels, name) {
            return true;
        }
    }
    false
}
