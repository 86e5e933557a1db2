//! Base dates, and what a list holds after an entry was entered.

use super::calls::{Row, enter, expect, has_text, holds};
use dumpdates::{Dates, LAST_SECOND};
use std::alloc::Global;
use std::process::Abort;
use std::test::Fail;

/// One name at two levels.
const TWO_LEVELS: &str = "/usr 0 Tue Feb 29 00:00:00 2000\n/usr 1 Wed Mar  1 00:00:00 2000\n";

/// The same name with the later date at the lower level, and the levels in the other order.
const LATER_BELOW: &str = "/usr 1 Tue Feb 29 00:00:00 2000\n/usr 0 Wed Mar  1 00:00:00 2000\n";

/// One name and level twice.
const TWICE: &str = "/usr 0 Thu Jan  1 00:01:40 1970\n/usr 0 Thu Jan  1 00:00:50 1970\n";

/// Two names, one of them at two levels.
const THREE: &str = "/usr 0 Tue Feb 29 00:00:00 2000\n\
/usr 1 Tue Feb 29 00:00:00 2000\n\
/home 0 Thu Jan  1 00:00:00 1970\n";

/// The latest date.
const LATEST: &str = "/usr 0 Fri Dec 31 23:59:59 9999\n";

/// A file, a name and a level, and the expected base date.
type Base = (&'static str, &'static str, u8, u64);

static BASES: [Base; 13] = [
    (TWO_LEVELS, "/usr", 2, 951868800),
    (TWO_LEVELS, "/usr", 1, 951782400),
    (TWO_LEVELS, "/usr", 0, 0),
    (TWO_LEVELS, "/usr", 9, 951868800),
    (TWO_LEVELS, "/home", 9, 0),
    (TWO_LEVELS, "/us", 9, 0),
    (TWO_LEVELS, "/usr/", 9, 0),
    (LATER_BELOW, "/usr", 2, 951868800),
    (LATER_BELOW, "/usr", 1, 951868800),
    (LATER_BELOW, "/usr", 0, 0),
    (TWICE, "/usr", 1, 100),
    (LATEST, "/usr", 1, LAST_SECOND),
    ("", "/usr", 9, 0),
];

/// Whether a dump of this name and level has this base date, according to a file.
fn has_base(alloc: Global, (file, name, level, base): Base) -> bool {
    match Dates::read(alloc, file.as_bytes()) {
        Ok(dates) => dates.base(name, level) == base,
        Err(_) => false,
    }
}

fn check_bases(rt: &impl Abort, alloc: Global, rows: &[Base]) {
    for row in rows {
        expect(rt, has_base(alloc, *row), row.1);
    }
}

#[test]
fn bases(rt: HostRuntime) {
    check_bases(&rt, rt.alloc(), &BASES);
}

/// Two names and two levels, each once.
const SINGLES: &str = "/a 1 Thu Jan  1 00:00:10 1970\n\
/a 2 Thu Jan  1 00:00:20 1970\n\
/b 1 Thu Jan  1 00:00:30 1970\n";

/// Two names and two levels. `/a` at level 1 occurs three times.
const DOUBLES: &str = "/a 1 Thu Jan  1 00:00:10 1970\n\
/b 1 Thu Jan  1 00:00:20 1970\n\
/a 1 Thu Jan  1 00:00:30 1970\n\
/a 2 Thu Jan  1 00:00:40 1970\n\
/a 1 Thu Jan  1 00:00:50 1970\n";

/// A file, an entry, and what the file's list holds after the entry was entered.
type Entering = (&'static str, Row, &'static [Row]);

static ENTERED: [Entering; 12] = [
    // another name or another level is added at the end
    ("", ("/a", 1, 99), &[("/a", 1, 99)]),
    (
        SINGLES,
        ("/c", 1, 99),
        &[("/a", 1, 10), ("/a", 2, 20), ("/b", 1, 30), ("/c", 1, 99)],
    ),
    (
        SINGLES,
        ("/a/", 1, 99),
        &[("/a", 1, 10), ("/a", 2, 20), ("/b", 1, 30), ("/a/", 1, 99)],
    ),
    (
        SINGLES,
        ("/b", 2, 99),
        &[("/a", 1, 10), ("/a", 2, 20), ("/b", 1, 30), ("/b", 2, 99)],
    ),
    // an entry replaces an earlier one in its place
    (
        SINGLES,
        ("/a", 2, 99),
        &[("/a", 1, 10), ("/a", 2, 99), ("/b", 1, 30)],
    ),
    (
        TWO_LEVELS,
        ("/usr", 0, 951868800),
        &[("/usr", 0, 951868800), ("/usr", 1, 951868800)],
    ),
    (
        THREE,
        ("/usr", 1, 951868800),
        &[
            ("/usr", 0, 951782400),
            ("/usr", 1, 951868800),
            ("/home", 0, 0),
        ],
    ),
    // also if its date is earlier
    (
        SINGLES,
        ("/a", 2, 0),
        &[("/a", 1, 10), ("/a", 2, 0), ("/b", 1, 30)],
    ),
    // doubles are removed, but stay if another name or level is entered
    (TWICE, ("/usr", 0, 70), &[("/usr", 0, 70)]),
    (
        DOUBLES,
        ("/a", 1, 99),
        &[("/a", 1, 99), ("/b", 1, 20), ("/a", 2, 40)],
    ),
    (
        DOUBLES,
        ("/b", 1, 99),
        &[
            ("/a", 1, 10),
            ("/b", 1, 99),
            ("/a", 1, 30),
            ("/a", 2, 40),
            ("/a", 1, 50),
        ],
    ),
    (
        DOUBLES,
        ("/b", 2, 99),
        &[
            ("/a", 1, 10),
            ("/b", 1, 20),
            ("/a", 1, 30),
            ("/a", 2, 40),
            ("/a", 1, 50),
            ("/b", 2, 99),
        ],
    ),
];

/// Whether a list holds `wanted` after the entry was entered.
fn comes_to(dates: &mut Dates, entry: Row, wanted: &[Row]) -> bool {
    enter(dates, entry) && holds(dates, wanted)
}

/// Whether a file's list holds `wanted` after the entry was entered once, and after it was entered
/// twice.
fn is_entered(alloc: Global, (file, entry, wanted): Entering) -> bool {
    match Dates::read(alloc, file.as_bytes()) {
        Ok(mut dates) => comes_to(&mut dates, entry, wanted) && comes_to(&mut dates, entry, wanted),
        Err(_) => false,
    }
}

fn check_entered(rt: &impl Abort, alloc: Global, rows: &[Entering]) {
    for row in rows {
        expect(rt, is_entered(alloc, *row), row.1.0);
    }
}

#[test]
fn entries_are_entered(rt: HostRuntime) {
    check_entered(&rt, rt.alloc(), &ENTERED);
}

/// The three lines of `THREE`, with the entered date in the second.
const THREE_ENTERED: &str = "/usr                             0 Tue Feb 29 00:00:00 2000\n\
/usr                             1 Wed Mar  1 00:00:00 2000\n\
/home                            0 Thu Jan  1 00:00:00 1970\n";

/// Whether a list is written as this text after the entry was entered.
fn is_written_after(dates: &mut Dates, entry: Row, wanted: &str) -> bool {
    enter(dates, entry) && has_text(dates, wanted.as_bytes())
}

/// The line of an entry stays in its place, whether it is entered once or twice.
#[test]
fn an_entry_keeps_its_line(rt: HostRuntime) -> Result<(), Fail> {
    let mut dates = Dates::read(rt.alloc(), THREE.as_bytes())?;
    let entry = ("/usr", 1, 951868800);
    assert!(rt; is_written_after(&mut dates, entry, THREE_ENTERED));
    assert!(rt; is_written_after(&mut dates, entry, THREE_ENTERED));
    Ok(())
}

/// The base date is that of the entry that replaced two.
#[test]
fn a_base_after_entering(rt: HostRuntime) -> Result<(), Fail> {
    let mut dates = Dates::read(rt.alloc(), TWICE.as_bytes())?;
    assert!(rt; dates.base("/usr", 1) == 100);
    assert!(rt; enter(&mut dates, ("/usr", 0, 70)));
    assert!(rt; dates.len() == 1 && dates.base("/usr", 1) == 70);
    Ok(())
}
