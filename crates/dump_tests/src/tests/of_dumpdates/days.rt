//! Dates as days of the calendar, as date(1) prints them.

use super::calls::has_text;
use dumpdates::{Dates, LAST_SECOND, as_name, date_text, utc_text};
use std::alloc::Global;

/// Lines of entries. The name of each is its date N in seconds. The date is what
/// `LC_ALL=C date -u -d @N '+%a %b %e %H:%M:%S %Y'` prints.
const PRINTED: &str = "\
0                                0 Thu Jan  1 00:00:00 1970\n\
59                               0 Thu Jan  1 00:00:59 1970\n\
86399                            0 Thu Jan  1 23:59:59 1970\n\
86400                            0 Fri Jan  2 00:00:00 1970\n\
2678399                          0 Sat Jan 31 23:59:59 1970\n\
2678400                          0 Sun Feb  1 00:00:00 1970\n\
31535999                         0 Thu Dec 31 23:59:59 1970\n\
31536000                         0 Fri Jan  1 00:00:00 1971\n\
68169599                         0 Mon Feb 28 23:59:59 1972\n\
68169600                         0 Tue Feb 29 00:00:00 1972\n\
68255999                         0 Tue Feb 29 23:59:59 1972\n\
68256000                         0 Wed Mar  1 00:00:00 1972\n\
94694399                         0 Sun Dec 31 23:59:59 1972\n\
94694400                         0 Mon Jan  1 00:00:00 1973\n\
951782400                        0 Tue Feb 29 00:00:00 2000\n\
951827696                        0 Tue Feb 29 12:34:56 2000\n\
951868799                        0 Tue Feb 29 23:59:59 2000\n\
951868800                        0 Wed Mar  1 00:00:00 2000\n\
978307199                        0 Sun Dec 31 23:59:59 2000\n\
978307200                        0 Mon Jan  1 00:00:00 2001\n\
1000000000                       0 Sun Sep  9 01:46:40 2001\n\
1077926399                       0 Fri Feb 27 23:59:59 2004\n\
1078012800                       0 Sun Feb 29 00:00:00 2004\n\
1234567890                       0 Fri Feb 13 23:31:30 2009\n\
1582934399                       0 Fri Feb 28 23:59:59 2020\n\
1582934400                       0 Sat Feb 29 00:00:00 2020\n\
1583020800                       0 Sun Mar  1 00:00:00 2020\n\
1767225600                       0 Thu Jan  1 00:00:00 2026\n\
2147483647                       0 Tue Jan 19 03:14:07 2038\n\
2147483648                       0 Tue Jan 19 03:14:08 2038\n\
4107456000                       0 Sun Feb 28 00:00:00 2100\n\
4107542399                       0 Sun Feb 28 23:59:59 2100\n\
4107542400                       0 Mon Mar  1 00:00:00 2100\n\
4233686400                       0 Fri Feb 29 00:00:00 2104\n\
4260211199                       0 Wed Dec 31 23:59:59 2104\n\
4294967295                       0 Sun Feb  7 06:28:15 2106\n\
4294967296                       0 Sun Feb  7 06:28:16 2106\n\
7258118400                       0 Wed Jan  1 00:00:00 2200\n\
13569379200                      0 Fri Dec 31 00:00:00 2399\n\
13569465600                      0 Sat Jan  1 00:00:00 2400\n\
32503679999                      0 Tue Dec 31 23:59:59 2999\n\
32503680000                      0 Wed Jan  1 00:00:00 3000\n\
64060588800                      0 Sat Jan  1 00:00:00 4000\n\
253370764799                     0 Thu Dec 31 23:59:59 9998\n\
253370764800                     0 Fri Jan  1 00:00:00 9999\n\
253402214400                     0 Fri Dec 31 00:00:00 9999\n\
253402300799                     0 Fri Dec 31 23:59:59 9999\n";

/// Whether each of the 47 entries has the date that is its name.
fn are_dated(dates: &Dates) -> bool {
    for at in 0..dates.len() {
        let Some(entry) = dates.get(at) else {
            return false;
        };
        if entry.name.parse::<u64>() != Ok(entry.date) {
            return false;
        }
    }
    dates.len() == 47
}

/// Whether the lines are read with these dates, and written back unchanged.
fn are_printed(alloc: Global) -> bool {
    match Dates::read(alloc, PRINTED.as_bytes()) {
        Ok(dates) => are_dated(&dates) && has_text(&dates, PRINTED.as_bytes()),
        Err(_) => false,
    }
}

#[test]
fn as_date_prints_them(rt: HostRuntime) {
    assert!(rt; are_printed(rt.alloc()));
}

/// Whether a date has this text.
fn is_date_text(date: u64, wanted: &str) -> bool {
    match date_text(date) {
        Some(text) => text.as_str() == wanted,
        None => false,
    }
}

#[test]
fn dates_as_texts(rt: HostRuntime) {
    assert!(rt; is_date_text(0, "Thu Jan  1 00:00:00 1970"));
    assert!(rt; is_date_text(951782400, "Tue Feb 29 00:00:00 2000"));
    assert!(rt; is_date_text(LAST_SECOND, "Fri Dec 31 23:59:59 9999"));
    assert!(rt; date_text(LAST_SECOND + 1).is_none());
}

#[test]
fn bytes_as_names(rt: HostRuntime) {
    assert!(rt; as_name(b"/usr") == Some("/usr"));
    assert!(rt; as_name(b"/usr local").is_none());
}

/// Whether this is the text of a date in UTC.
fn is_utc_text(date: u64, wanted: &str) -> bool {
    match utc_text(date) {
        Some(text) => text.as_str() == wanted,
        None => false,
    }
}

#[test]
fn dates_in_utc(rt: HostRuntime) {
    assert!(rt; is_utc_text(0, "1970-01-01 00:00:00"));
    assert!(rt; is_utc_text(951782400, "2000-02-29 00:00:00"));
    assert!(rt; is_utc_text(1795917605, "2026-11-29 02:00:05"));
    assert!(rt; is_utc_text(LAST_SECOND, "9999-12-31 23:59:59"));
    assert!(rt; utc_text(LAST_SECOND + 1).is_none());
}
