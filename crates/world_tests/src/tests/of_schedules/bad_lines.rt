//! Schedules with a faulty line.

use super::fixture::{Case, check, check_cases};
use std::test::Fail;

/// Schedules with a bad line, with a line that is not possible, and without a faulty line.
static WHOLE: [Case; 12] = [
    Case {
        text: b"drive /dev/st0 3100 r1\n\nretry\n",
        printed: b"line 3: not possible\n",
        status: 1,
    },
    Case {
        text: b"drive /dev/st0 3100 r1\n\nfrob\n",
        printed: b"line 3: bad line\n",
        status: 1,
    },
    Case {
        text: b"",
        printed: b"line 1: bad line\n",
        status: 1,
    },
    Case {
        text: b"\n# drive /dev/st0 3100 r1\n\n",
        printed: b"line 1: bad line\n",
        status: 1,
    },
    Case {
        text: b"\nconnect\ndrive /dev/st0 3100 r1\n",
        printed: b"line 2: bad line\n",
        status: 1,
    },
    Case {
        text: b"drive /dev/st0 3100 r1\nstranger\ndrive /dev/st1 3100 r2\n",
        printed: b"line 3: bad line\n",
        status: 1,
    },
    Case {
        text: b"drive /dev/st0 3100 r1\ndrive /dev/st0 3100 r2\n",
        printed: b"line 2: bad line\n",
        status: 1,
    },
    Case {
        text: b"drive /dev/st0 3100 r1\n#\ndrive /dev/st1 3100 r2 r1\n",
        printed: b"line 3: bad line\n",
        status: 1,
    },
    Case {
        text: b"drive /dev/st0 3100 r1 r2 r1",
        printed: b"line 1: bad line\n",
        status: 1,
    },
    Case {
        text: b"drive /dev/st0 0\ndrive /dev/st1 9223372036854775807 r1",
        printed: b"reel r1\nstack /dev/st0\nstack /dev/st1 r1\nbin\ndumpdates\n",
        status: 0,
    },
    Case {
        text: b"drive /dev/st0 3100 r1\r\n",
        printed: b"line 1: bad line\n",
        status: 1,
    },
    Case {
        text: b"drive /dev/st0 3100 r1\nretry\nfrob\n",
        printed: b"line 2: not possible\n",
        status: 1,
    },
];

#[test]
fn the_first_line_at_fault_decides(rt: HostRuntime) -> Result<(), Fail> {
    check_cases(rt.alloc(), &WHOLE)
}

/// Bad lines, after the line of a drive.
const BAD: &[&str] = &[
    " connect",
    "connect ",
    "connect 1",
    "Connect",
    "send  fault",
    "send faults",
    "to-server 1",
    "to-server all",
    "to-server 1 all 1",
    "to-server 1 -1",
    "to-server 1 9223372036854775808",
    "to-client 1 All",
    "to-client +1 1",
    "to-client 1 1e1",
    "serve",
    "serve 1 ",
    "serve 1 none",
    "serve 1 kept 1",
    "serve 1 written",
    "serve 1 written x",
    "serve 9223372036854775808",
    "cut",
    "cut  1",
    "cut one",
    "end-server",
    "end-client 1 1",
    "restart-server 1",
    "restart-client 1",
    "restart",
    "retry 1",
    "abandon 1",
    "stranger 1",
    "enter 1",
    "arrange",
    "arrange ",
    "arrange /dev/st0 ",
    "arrange /dev/st0 r1  r2",
    "arrange /dev/st0 r\u{7f}",
    "arrange /dev/st0 aaaaaaaaaaaaaaaaaaaaaaaaaaaaaaaaa",
    "says 1",
    "says 1 ",
    "says 1 4",
    "says 1 4F",
    "says 1 4g",
    "says 1 4f 2f",
    "pump 1",
    "pump 1 all",
    "pump 1 1 1",
    "run /dev/st0 /usr 10 0 0 1024 1",
    "run /dev/st0 /usr 0 253402300800 0 1024 1",
    "run /dev/st0 /usr 0 0 253402300800 1024 1",
    "run /dev/st0 /usr 0 0 0 0 1",
    "run /dev/st0 /usr 0 0 0 262145 1",
    "run /dev/st0 /usr 0 0 0 1024 2147483648",
    "run /dev/st0  0 0 0 1024 1",
    "run /dev/st0 /usr 0 0 0 1024",
];

/// Lines that are valid, but not possible after only the line of a drive.
const IMPOSSIBLE: &[&str] = &[
    "connect",
    "send",
    "send fault",
    "to-server 1 all",
    "to-server 0 0",
    "to-client 1 1",
    "to-client 9223372036854775807 9223372036854775807",
    "serve 1",
    "serve 1 kept",
    "serve 1 lost",
    "serve 1 written 0",
    "serve 1 written 9223372036854775807",
    "cut 1",
    "end-server 1",
    "end-client 1",
    "restart-client",
    "retry",
    "abandon",
    "enter",
    "save",
    "arrange /dev/st1",
    "arrange /dev/st0 r2",
    "says 1 4f",
];

/// Lines that are possible after only the line of a drive. Some of them do nothing.
const POSSIBLE: &[&str] = &[
    "restart-server",
    "stranger",
    "pump 1 1",
    "pump 0 9223372036854775807",
    "pump 1 0",
    "arrange /dev/st0 r1",
    "run /dev/st0 /usr 0 951782400 0 1024 3",
    "run d /usr 0000000000000000000000009 253402300799 0 262144 0",
];

/// Lines that follow the line of a drive, what they print, and the exit status.
static LINES: [(&[&str], &[u8], u8); 3] = [
    (BAD, b"line 2: bad line\n", 1),
    (IMPOSSIBLE, b"line 2: not possible\n", 1),
    (POSSIBLE, b"reel r1\nstack /dev/st0 r1\nbin\ndumpdates\n", 0),
];

#[test]
fn lines_of_each_kind(rt: HostRuntime) -> Result<(), Fail> {
    let alloc = rt.alloc();
    for (lines, printed, status) in &LINES {
        for line in *lines {
            let text = format!(in alloc; "drive /dev/st0 3100 r1\n{line}\n")?;
            check(alloc, text.as_bytes(), printed, *status)?;
        }
    }
    Ok(())
}
