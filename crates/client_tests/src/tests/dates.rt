//! Queries of a dumpdates file: what is printed, and the exit status.

use super::check_row;
use dump_files::dates;
use rmt_wire::Counted;
use std::alloc::Global;

/// Two dumps of one file system.
const TWO: &[u8] = b"/usr 0 Tue Feb 29 00:00:00 2000\n/usr 1 Wed Mar  1 00:00:00 2000\n";

/// A file with a bad line.
const BAD_LINE: &[u8] = b"a 0 Mon Jan 1 00:00:00 1970\n\nb 10 Thu Jan 1 00:00:00 1970\n";

/// Files with a bad date.
const FEBRUARY_30: &[u8] = b"/usr 0 Tue Feb 30 00:00:00 2000";

const LEAP_2100: &[u8] = b"a 0 Mon Feb 29 00:00:00 2100";

const LEAP_1968: &[u8] = b"a 0 Mon Feb 29 00:00:00 1968";

/// A file, the query, what is printed, and the exit status.
type Row = (&'static [u8], Option<(&'static str, u8)>, &'static [u8], u8);

/// Files that are printed, base dates, and bad files with their first bad line. The dates come from
/// the `date` command.
static ROWS: [Row; 19] = [
    (b"", None, b"", 0),
    (b" \t\n\n", None, b"", 0),
    (
        b"/usr 0 Tue Feb 29 00:00:00 2000\n",
        None,
        b"/usr                             0 Tue Feb 29 00:00:00 2000\n",
        0,
    ),
    (
        b"\t/usr 1 Mon Mar 1 00:00:00 2000\n\n/usr 0 Tue Feb 29 00:00:00 2000",
        None,
        b"/usr                             1 Wed Mar  1 00:00:00 2000\n/usr                             0 Tue Feb 29 00:00:00 2000\n",
        0,
    ),
    (
        b"a 3 Sun Feb 29 12:34:56 2000",
        None,
        b"a                                3 Tue Feb 29 12:34:56 2000\n",
        0,
    ),
    (TWO, Some(("/usr", 2)), b"951868800\n", 0),
    (TWO, Some(("/usr", 1)), b"951782400\n", 0),
    (TWO, Some(("/usr", 0)), b"0\n", 0),
    (TWO, Some(("/home", 9)), b"0\n", 0),
    (
        b"a 3 Sun Feb 29 12:34:56 2000",
        Some(("a", 4)),
        b"951827696\n",
        0,
    ),
    (
        b"a 0 Fri Dec 31 23:59:59 9999",
        Some(("a", 9)),
        b"253402300799\n",
        0,
    ),
    (BAD_LINE, None, b"line 3: bad line\n", 1),
    (BAD_LINE, Some(("a", 1)), b"line 3: bad line\n", 1),
    (FEBRUARY_30, None, b"line 1: bad date\n", 1),
    (FEBRUARY_30, Some(("a", 1)), b"line 1: bad date\n", 1),
    (LEAP_2100, None, b"line 1: bad date\n", 1),
    (LEAP_2100, Some(("a", 1)), b"line 1: bad date\n", 1),
    (LEAP_1968, None, b"line 1: bad date\n", 1),
    (LEAP_1968, Some(("a", 1)), b"line 1: bad date\n", 1),
];

/// Whether the row's text is printed, with its status.
fn prints(alloc: Global, row: &Row) -> bool {
    let (file, asked, wanted, status) = *row;
    let mut printed = Vec::new(alloc);
    let mut out = Counted::new(&mut printed);
    let told = dates(alloc, file, asked, &mut out).code();
    told == status && printed.as_slice() == wanted
}

#[test]
fn what_is_printed(rt: HostRuntime) {
    for (at, row) in ROWS.iter().enumerate() {
        check_row(&rt, at, prints(rt.alloc(), row));
    }
}
