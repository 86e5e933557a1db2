//! Texts, entries and dates that were worked out by hand.

use super::calls::{Row, dates_of, expect, has_fault, has_text, holds};
use dumpdates::{
    Dates, DatesFault, Entry, LAST_SECOND, is_name, one_entry, one_reading, written_and_read,
};
use std::alloc::Global;
use std::process::Abort;

/// Entries, and their text.
type Written = (&'static [Row], &'static str);

static WRITTEN: [Written; 5] = [
    (
        &[("/usr", 0, 951782400)],
        "/usr                             0 Tue Feb 29 00:00:00 2000\n",
    ),
    (
        &[("/usr", 0, 951868800), ("a", 3, 951827696), ("/", 9, 0)],
        "/usr                             0 Wed Mar  1 00:00:00 2000\n\
a                                3 Tue Feb 29 12:34:56 2000\n\
/                                9 Thu Jan  1 00:00:00 1970\n",
    ),
    (
        &[("/a/name/of/exactly/32/characters", 1, LAST_SECOND)],
        "/a/name/of/exactly/32/characters 1 Fri Dec 31 23:59:59 9999\n",
    ),
    (
        &[("/a/name/of/just/thirty-three/char", 1, LAST_SECOND)],
        "/a/name/of/just/thirty-three/char 1 Fri Dec 31 23:59:59 9999\n",
    ),
    (&[], ""),
];

/// Whether a list of the entries is written as the text, and read back from it.
fn is_written(alloc: Global, (entries, text): Written) -> bool {
    match dates_of(alloc, entries) {
        Some(dates) => has_text(&dates, text.as_bytes()) && is_spelled(alloc, (text, entries)),
        None => false,
    }
}

fn check_written(rt: &impl Abort, alloc: Global, rows: &[Written]) {
    for row in rows {
        expect(rt, is_written(alloc, *row), row.1);
    }
}

#[test]
fn entries_are_written(rt: HostRuntime) {
    check_written(&rt, rt.alloc(), &WRITTEN);
}

/// A text, and the entries that are read from it.
type Spelled = (&'static str, &'static [Row]);

static SPELLED: [Spelled; 14] = [
    ("a 0 Mon Jan 1 00:00:00 1970", &[("a", 0, 0)]),
    ("a 0 Thu Jan  1 00:00:00 1970\n", &[("a", 0, 0)]),
    ("a 0 Thu Jan 01 00:00:00 1970\n", &[("a", 0, 0)]),
    (
        "\n \t \n\ta\t0\tSun\tJan\t1\t00:00:00\t1970 \t\n\n",
        &[("a", 0, 0)],
    ),
    ("  a   0 Thu Jan 1 00:00:00 1970  ", &[("a", 0, 0)]),
    ("", &[]),
    ("\n", &[]),
    ("\t \n\n  ", &[]),
    ("a 3 Sun Feb 29 12:34:56 2000", &[("a", 3, 951827696)]),
    ("a 3 Sun Feb 9 12:34:56 2000", &[("a", 3, 950099696)]),
    ("/ 3 Sun Feb 09 12:34:56 2000", &[("/", 3, 950099696)]),
    (
        "/usr 0 Thu Jan 1 00:01:40 1970\n/usr 0 Thu Jan 1 00:00:50 1970\n",
        &[("/usr", 0, 100), ("/usr", 0, 50)],
    ),
    ("~!x 9 Fri Dec 31 23:59:59 9999", &[("~!x", 9, LAST_SECOND)]),
    (
        "/usr 0 Tue Feb 29 00:00:00 2000\n\n\
a 9 Thu Jan 1 00:00:00 1970\n\
/usr 0 Fri Dec 31 23:59:59 9999",
        &[
            ("/usr", 0, 951782400),
            ("a", 9, 0),
            ("/usr", 0, LAST_SECOND),
        ],
    ),
];

/// Whether exactly these entries are read from the text.
fn is_spelled(alloc: Global, (text, entries): Spelled) -> bool {
    match Dates::read(alloc, text.as_bytes()) {
        Ok(dates) => holds(&dates, entries),
        Err(_) => false,
    }
}

fn check_spelled(rt: &impl Abort, alloc: Global, rows: &[Spelled]) {
    for row in rows {
        expect(rt, is_spelled(alloc, *row), row.0);
    }
}

#[test]
fn texts_are_read(rt: HostRuntime) {
    check_spelled(&rt, rt.alloc(), &SPELLED);
}

/// A text, and its fault.
type Bad = (&'static str, DatesFault);

static BAD: [Bad; 12] = [
    ("a 10 Thu Jan 1 00:00:00 1970", DatesFault::BadLine(1)),
    ("a 0 Thu Jan 1 00:00:00 1970 +0000", DatesFault::BadLine(1)),
    (
        "a 0 Mon Jan 1 00:00:00 1970\n\nb 10 Thu Jan 1 00:00:00 1970\n",
        DatesFault::BadLine(3),
    ),
    ("\n\n \t\nx\n", DatesFault::BadLine(4)),
    ("x\na 0 Thu Feb 30 00:00:00 2000\n", DatesFault::BadLine(1)),
    ("a 0 Thu Jan 1 00:00:60 1970", DatesFault::BadDate(1)),
    ("/usr 0 Tue Feb 30 00:00:00 2000", DatesFault::BadDate(1)),
    ("a 0 Mon Feb 29 00:00:00 2100", DatesFault::BadDate(1)),
    ("a 0 Mon Feb 29 00:00:00 1968", DatesFault::BadDate(1)),
    (
        "a 0 Thu Jan 1 00:00:00 1970\n\na 0 Thu Jan 0 00:00:00 1970\nx\n",
        DatesFault::BadDate(3),
    ),
    (" 0 Thu Jan 1 00:00:00 1970", DatesFault::BadLine(1)),
    ("a 0 Thu Jan 1 00:00:00 1970\r", DatesFault::BadLine(1)),
];

/// Lines whose fields are not those of an entry.
const BAD_LINES: &str = "\
a\n\
a 0\n\
a 0 Thu Jan 1 00:00:00\n\
a 0 Thu Jan 1 00:00:00 1970 x\n\
a 00 Thu Jan 1 00:00:00 1970\n\
a -1 Thu Jan 1 00:00:00 1970\n\
a x Thu Jan 1 00:00:00 1970\n\
a 0 thu Jan 1 00:00:00 1970\n\
a 0 Thursday Jan 1 00:00:00 1970\n\
a 0 Thu jan 1 00:00:00 1970\n\
a 0 Thu 01 1 00:00:00 1970\n\
a 0 Thu Jan 001 00:00:00 1970\n\
a 0 Thu Jan x 00:00:00 1970\n\
a 0 Thu Jan 1 0:00:00 1970\n\
a 0 Thu Jan 1 00:00 1970\n\
a 0 Thu Jan 1 00.00.00 1970\n\
a 0 Thu Jan 1 000000 1970\n\
a 0 Thu Jan 1 00:00:00: 1970\n\
a 0 Thu Jan 1 00:00:00 970\n\
a 0 Thu Jan 1 00:00:00 01970\n\
a 0 Thu Jan 1 00:00:00 +970\n\
a\u{e9} 0 Thu Jan 1 00:00:00 1970\n\
a\u{7f} 0 Thu Jan 1 00:00:00 1970\n\
a0 Thu Jan 1 00:00:00 1970\n\
a 0Thu Jan 1 00:00:00 1970\n\
a 0 ThuJan 1 00:00:00 1970\n\
a 0 Thu Jan1 00:00:00 1970\n\
a 0 Thu Jan 100:00:00 1970\n\
a 0 Thu Jan 1 00:00:001970\n\
a Thu Jan 1 00:00:00 1970\n\
a 0 Jan 1 00:00:00 1970\n\
a 0 Thu 1 00:00:00 1970\n\
a 0 Thu Jan 00:00:00 1970\n\
a 0 Thu Jan 1 1970\n\
a 0 Th Jan 1 00:00:00 1970\n\
a 0 Thu Ja 1 00:00:00 1970\n\
a 0 Thu Jan 1 00:0:00 1970\n\
a 0 Thu Jan 1 00:00:0 1970\n\
a b 0 Thu Jan 1 00:00:00 1970\n\
a 0 Thu January 1 00:00:00 1970\n\
a 0 Thu Jan 1 1 00:00:00 1970\n\
a 0 Thu Jan 1 000:00:00 1970\n\
a 0 Thu Jan 1 00::00:00 1970\n\
a 0 Thu Jan 1 00:00:000 1970\n\
a 0 Thu Jan 1 00:00:00 19 70";

/// Lines with an invalid date.
const BAD_DATES: &str = "\
a 0 Thu Jan 0 00:00:00 1970\n\
a 0 Thu Jan 32 00:00:00 1970\n\
a 0 Thu Apr 31 00:00:00 1970\n\
a 0 Thu Jan 1 24:00:00 1970\n\
a 0 Thu Jan 1 00:60:00 1970\n\
a 0 Thu Jan 1 00:00:60 1970\n\
a 0 Thu Jan 1 00:00:00 1969\n\
a 0 Thu Jan 1 00:00:00 0000\n\
a 0 Thu Feb 29 00:00:00 1900\n\
a 0 Thu Feb 29 00:00:00 2001";

fn check_bad(rt: &impl Abort, alloc: Global, rows: &[Bad]) {
    for row in rows {
        expect(rt, has_fault(alloc, row.0.as_bytes(), row.1), row.0);
    }
}

fn check_lines(rt: &impl Abort, alloc: Global, lines: &str, fault: DatesFault) {
    for line in lines.lines() {
        expect(rt, has_fault(alloc, line.as_bytes(), fault), line);
    }
}

/// A bad line and a bad date are reported with the number of their line.
#[test]
fn what_is_bad_is_told_by_its_line(rt: HostRuntime) {
    check_bad(&rt, rt.alloc(), &BAD);
    check_lines(&rt, rt.alloc(), BAD_LINES, DatesFault::BadLine(1));
    check_lines(&rt, rt.alloc(), BAD_DATES, DatesFault::BadDate(1));
}

/// The longest name, and one that is a byte too long.
const LONGEST: &str = "nnnnnnnnnnnnnnnnnnnnnnnnnnnnnnnnnnnnnnnnnnnnnnnnnnnnnnnnnnnnnnnn\
nnnnnnnnnnnnnnnnnnnnnnnnnnnnnnnnnnnnnnnnnnnnnnnnnnnnnnnnnnnnnnnn\
nnnnnnnnnnnnnnnnnnnnnnnnnnnnnnnnnnnnnnnnnnnnnnnnnnnnnnnnnnnnnnnn\
nnnnnnnnnnnnnnnnnnnnnnnnnnnnnnnnnnnnnnnnnnnnnnnnnnnnnnnnnnnnnnn";

const LONGER: &str = "nnnnnnnnnnnnnnnnnnnnnnnnnnnnnnnnnnnnnnnnnnnnnnnnnnnnnnnnnnnnnnnn\
nnnnnnnnnnnnnnnnnnnnnnnnnnnnnnnnnnnnnnnnnnnnnnnnnnnnnnnnnnnnnnnn\
nnnnnnnnnnnnnnnnnnnnnnnnnnnnnnnnnnnnnnnnnnnnnnnnnnnnnnnnnnnnnnnn\
nnnnnnnnnnnnnnnnnnnnnnnnnnnnnnnnnnnnnnnnnnnnnnnnnnnnnnnnnnnnnnnn";

/// A name, a level and a date, whether the name is valid, and whether all three make an entry.
type Judged = (&'static str, u8, u64, bool, bool);

static JUDGED: [Judged; 18] = [
    ("/usr", 3, 951827696, true, true),
    ("!", 0, 0, true, true),
    ("~", 0, 0, true, true),
    ("!~", 0, 0, true, true),
    ("a", 9, LAST_SECOND, true, true),
    ("a", 10, 0, true, false),
    ("a", 0, LAST_SECOND + 1, true, false),
    ("", 0, 0, false, false),
    (" ", 0, 0, false, false),
    ("a b", 0, 0, false, false),
    ("a\t", 0, 0, false, false),
    ("a\n", 0, 0, false, false),
    ("a\0", 0, 0, false, false),
    ("\u{7f}", 0, 0, false, false),
    ("\u{e9}", 0, 0, false, false),
    ("\u{e9}", 9, LAST_SECOND, false, false),
    (LONGEST, 9, LAST_SECOND, true, true),
    (LONGER, 0, 0, false, false),
];

/// Whether the name and the entry are judged as the row says.
fn is_judged((name, level, date, a_name, an_entry): Judged) -> bool {
    is_name(name.as_bytes()) == a_name && Entry::new(name, level, date).is_some() == an_entry
}

fn check_judged(rt: &impl Abort, rows: &[Judged]) {
    for row in rows {
        expect(rt, is_judged(*row), row.0);
    }
}

#[test]
fn names_and_entries_within_their_limits(rt: HostRuntime) {
    check_judged(&rt, &JUDGED);
}

#[test]
fn laws_do_nothing() {
    one_reading();
    one_entry();
    written_and_read();
}

/// A fault, and its name.
type Named = (DatesFault, &'static str);

static FAULTS: [Named; 3] = [
    (DatesFault::BadLine(3), "line 3: bad line"),
    (DatesFault::BadDate(12), "line 12: bad date"),
    (DatesFault::OutOfMemory, "out of memory"),
];

/// Whether the fault prints its name.
fn is_named(alloc: Global, (fault, name): Named) -> bool {
    match fault.to_string(alloc) {
        Ok(printed) => printed.as_str() == name,
        Err(_) => false,
    }
}

fn check_named(rt: &impl Abort, alloc: Global, rows: &[Named]) {
    for row in rows {
        expect(rt, is_named(alloc, *row), row.1);
    }
}

#[test]
fn names_of_faults(rt: HostRuntime) {
    check_named(&rt, rt.alloc(), &FAULTS);
}
