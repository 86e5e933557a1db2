//! The lines of the server's log.

use reel_files::Log;
use rmtd_serve::{ErrorLog, LineStart};
use std::alloc::Global;
use std::cell::Cell;
use std::fmt::Display;
use std::io::{self, ErrorKind};
use std::rt::Clock;
use std::time::Duration;

/// The expected lines, in order.
static WANTED: [&str; 5] = [
    "rmtd: seat 3: connection 7: served",
    "rmtd: accept failed",
    "2004-02-29T23:59:59Z rmtd: seat 32: /dev/st0: r1 opened",
    "2004-02-29T23:59:59Z rmtd: accept failed",
    "rmtd: no time",
];

/// The time of the clock, in milliseconds since 1970: 2004-02-29 23:59:59.7, UTC.
const NOW_MILLIS: u64 = 1_078_099_199_700;

/// A standard error that compares each line with the next expected one. If `takes` is false, every
/// write fails.
#[derive(Drop)]
struct Compared {
    alloc: Global,
    takes: bool,
    tells_time: Cell<bool>,
    right: Cell<usize>,
}

impl Clock for Compared {
    fn monotonic(&self) -> io::Result<Duration> {
        self.since_1970()
    }

    fn since_1970(&self) -> io::Result<Duration> {
        if self.tells_time.get() {
            Ok(Duration::from_millis(NOW_MILLIS))
        } else {
            Err(ErrorKind::InvalidInput.into())
        }
    }
}

impl Eprint for Compared {
    fn eprint<D: Display + Drop>(&self, _value: D) -> io::Result<()> {
        Err(ErrorKind::Unsupported.into())
    }

    fn eprintln<D: Display + Drop>(&self, value: D) -> io::Result<()> {
        if !self.takes {
            return Err(ErrorKind::BrokenPipe.into());
        }
        let line = format!(in self.alloc; "{value}")?;
        let right = self.right.get();
        if WANTED.get(right) == Some(&line.as_str()) {
            self.right.set(right.saturating_add(1));
        }
        Ok(())
    }
}

/// Logs a line for this seat, or for no seat.
fn note(told: &Compared, seat: Option<usize>, start: LineStart, line: &str) {
    ErrorLog {
        rt: told,
        seat,
        start,
    }
    .note(line);
}

/// Returns how many of the expected lines were logged: for seats and for no seat, with the time and
/// without.
fn right_lines(alloc: Global, takes: bool) -> usize {
    let told = Compared {
        alloc,
        takes,
        tells_time: Cell::new(true),
        right: Cell::new(0),
    };
    note(&told, Some(3), LineStart::Name, "connection 7: served");
    note(&told, None, LineStart::Name, "accept failed");
    note(&told, Some(32), LineStart::Time, "/dev/st0: r1 opened");
    note(&told, None, LineStart::Time, "accept failed");
    told.tells_time.set(false);
    note(&told, None, LineStart::Time, "no time");
    told.right.get()
}

#[test]
fn lines_have_their_start_and_are_dropped_where_they_are_refused(rt: HostRuntime) {
    assert!(rt;
        right_lines(rt.alloc(), true) == WANTED.len() && right_lines(rt.alloc(), false) == 0
    );
}
