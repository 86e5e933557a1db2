//! A session that gives its seat back.

ghost use Rattle.std.specs.Prelude.{◌≤◌, length};

use super::CAPACITY;
use super::fixture::{Drives, first_holder, new_session, two_drives};
use std::alloc::Global;

/// Whether a session with nothing open gives back its seat, and the first drive is then free.
fn gives_its_seat_back(alloc: Global, mut drives: Drives) -> bool
    requires { length drives.stacks.library.drives ≤ length drives.holds.numbers }
{
    let Some(session) = new_session(alloc, &mut drives) else {
        return false;
    };
    let mut seat = session.into_seat();
    first_holder(&mut drives, &mut seat) == Some(0)
}

/// Runs `gives_its_seat_back` with new drives.
fn gives_a_new_seat_back(alloc: Global) -> bool {
    match two_drives(alloc, CAPACITY) {
        Some(drives) => gives_its_seat_back(alloc, drives),
        None => false,
    }
}

#[test]
fn a_seat_is_given_back(rt: HostRuntime) {
    assert!(rt; gives_a_new_seat_back(rt.alloc()));
}
