//! Finds and takes reels by their names.

ghost use Rattle.std.specs.Prelude.{◌≡◌, ◌≤◌, ◌+◌, ◌++◌, ◌||◌, length, map, vec_len, vec_capacity};
ghost use Rattle.std.specs.List.{position_from, list_any, list_all};
ghost use Rattle.std.specs.Option.{option_copied};
ghost use Rattle.std.specs.Str.{bytes_eq};
ghost use Rattle.drives.specs.Arranging.{slot_named, without, picked, left, is_repeated, are_distinct, is_among};

use crate::ListedReel;

pub(crate) fn any_named(reels: &[ListedReel], name: &[u8]) -> bool
    ensures { result ≡ list_any (λ x. bytes_eq name.now x.name) reels.now }
{
    reels.iter().any(|reel| reel.is_named(name))
}

pub(crate) fn all_differ(names: &[&[u8]]) -> bool
    ensures { result ≡ are_distinct (map (λ n. n.now) names.now) }
{
    for place in 0..names.len() {
        if occurs_again(&names[place..]) {
            return false;
        }
    }
    true
}

fn occurs_again(names: &[&[u8]]) -> bool
    ensures { result ≡ is_repeated (map (λ n. n.now) names.now) }
{
    let Some((name, others)) = names.split_first() else {
        return false;
    };
    any_is(others, name)
}

fn any_is(names: &[&[u8]], name: &[u8]) -> bool
    ensures { result ≡ list_any (λ n. bytes_eq name.now n.now) names.now }
{
    names.iter().any(|other| name == *other)
}

pub(crate) fn all_there(names: &[&[u8]], bin: &[ListedReel], stack: &[ListedReel]) -> bool
    ensures { result ≡ list_all (λ n. is_among bin.now n.now || is_among stack.now n.now) names.now }
{
    names
        .iter()
        .all(|name| any_named(bin, name) || any_named(stack, name))
}

pub(crate) fn find_named<'a>(reels: &'a [ListedReel], name: &[u8]) -> Option<&'a ListedReel>
    ensures { option_copied result ≡ slot_named name.now reels.now }
{
    reels.iter().find(|reel| reel.is_named(name))
}

fn place_of(reels: &[ListedReel], name: &[u8]) -> Option<usize>
    ensures { result ≡ position_from (λ x. bytes_eq name.now x.name) 0 reels.now }
{
    reels.iter().position(|reel| reel.is_named(name))
}

fn take_out(reels: &mut Vec<ListedReel>, name: &[u8]) -> Option<ListedReel>
    ensures taken { result ≡ slot_named name.now reels.old.items }
    ensures left { reels.new.items ≡ without name.now reels.old.items }
    ensures room { vec_capacity reels.new ≡ vec_capacity reels.old }
{
    let Some(place) = place_of(reels, name) else {
        return None;
    };
    Some(reels.remove(place))
}

/// Moves the reels with these names to the end of `onto`.
pub(crate) fn pick(reels: &mut Vec<ListedReel>, names: &[&[u8]], onto: &mut Vec<ListedReel>)
    requires { vec_len onto.old + length names.now ≤ vec_capacity onto.old }
    ensures picked { onto.new.items ≡ onto.old.items ++ picked (map (λ n. n.now) names.now) reels.old.items }
    ensures left { reels.new.items ≡ left (map (λ n. n.now) names.now) reels.old.items }
    ensures room { vec_capacity reels.new ≡ vec_capacity reels.old }
{
    for name in names {
        if let Some(reel) = take_out(reels, name) {
            onto.push_reserved(reel);
        }
    }
}
