//! The calls of `rmt_tools` that return an exit status as a number.

use rmt_tools::{dates, schedule};
use rmt_wire::Counted;

/// A dumpdates file with one dump.
pub(super) const DATES: &[u8] = b"/usr 0 Tue Feb 29 00:00:00 2000\n";

/// The base date is printed. The dates come from the `date` command.
#[test]
fn a_base_date_and_its_status(rt: HostRuntime) {
    let mut room = [0; 10];
    let mut out = Counted::new(room.as_mut_slice());
    assert!(rt; dates(rt.alloc(), DATES, Some(("/usr", 1)), &mut out) == 0);
    assert!(rt; room == *b"951782400\n");
}

/// A bad line is reported, with status 1.
#[test]
fn a_bad_line_and_its_status(rt: HostRuntime) {
    let mut room = [0; 17];
    let mut out = Counted::new(room.as_mut_slice());
    assert!(rt; dates(rt.alloc(), b"/usr\n", None, &mut out) == 1);
    assert!(rt; room == *b"line 1: bad line\n");
}

/// A schedule without events prints the drives and their reels.
#[test]
fn a_schedule_and_its_status(rt: HostRuntime) {
    let mut room = [0; 31];
    let mut out = Counted::new(room.as_mut_slice());
    assert!(rt; schedule(rt.alloc(), b"drive d 9 r\n", &mut out) == 0);
    assert!(rt; room == *b"reel r\nstack d r\nbin\ndumpdates\n");
}
