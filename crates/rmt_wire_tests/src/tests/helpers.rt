//! Tests of the functions for programs.

use super::fake::Fake;
use rmt_wire::argument::{is_device, number_of};
use rmt_wire::{Counted, find_byte, print_text};
use std::io::ErrorKind;

#[test]
fn a_text_is_printed_whole(rt: HostRuntime) {
    let mut room = [0; 7];
    let mut out = Counted::new(room.as_mut_slice());
    assert!(rt; print_text(&mut out, b"retry?\n") && out.failures() == 0);
    assert!(rt; room == *b"retry?\n");
}

/// Two bytes are written, the next write fails, and no further one is made, though it would work.
#[test]
fn no_text_is_printed_after_a_failed_write(rt: HostRuntime) {
    let trouble = Some(ErrorKind::BrokenPipe);
    let mut out = Counted::new(Fake::new(rt.alloc(), 2, 1, 1, trouble));
    assert!(rt; !print_text(&mut out, b"retry?\n") && out.failures() == 1);
    let fake = out.into_inner();
    assert!(rt; *fake.taken == *b"re".as_slice() && fake.calls == 2);
}

#[test]
fn a_byte_is_found_where_it_first_stands(rt: HostRuntime) {
    assert_eq!(rt; find_byte(b"A0\nE1\n", b'\n'), Some(2));
    assert_eq!(rt; find_byte(b"A0", b'\n'), None);
}

#[test]
fn arguments_name_devices_and_numbers(rt: HostRuntime) {
    assert!(rt; is_device(b"/dev/st0"));
    assert_eq!(rt; number_of("007"), Some(7));
}
