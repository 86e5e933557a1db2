//! The exit statuses of the commands of `rdump`, at the system that runs the tests. There is no
//! server.

use super::check_row;
use super::exit_codes::DATES;
use console::ExitStatus;
use rdump_args::{DumpLine, MtLine, ReadLine};
use rdump_commands::{rdump, run_arguments, run_dates, run_dump, run_mt, run_read};
use std::fs;
use std::io::Stderr;
use std::os::unix::fs::symlink;
use std::test::Fail;
use std::time::Duration;

/// No terminal on which progress would be shown.
pub(super) const NO_TERMINAL: Option<Stderr> = None;

/// An address without a server.
pub(super) const NOWHERE: &str = "127.0.0.1:1";

/// Arguments, and the exit status of `rdump`.
type Row = (&'static [&'static str], ExitStatus);

/// The help, the version, wrong arguments, a missing file, and a missing server.
static ROWS: [Row; 5] = [
    (&["rdump", "--help"], ExitStatus::Success),
    (&["rdump", "--version"], ExitStatus::Success),
    (&["rdump", "tape"], ExitStatus::StartupError),
    (
        &["rdump", "dates", "--file", "none"],
        ExitStatus::StartupError,
    ),
    (
        &[
            "rdump", "mt", "--to", NOWHERE, "--device", "d", "rewind", "1",
        ],
        ExitStatus::Abnormal,
    ),
];

/// Whether `rdump` ends with this status.
fn ends_so(rt: &HostRuntime, row: &Row) -> bool {
    run_arguments(rt, row.0, NO_TERMINAL) == row.1
}

#[test]
fn statuses_of_arguments(rt: HostRuntime) {
    for (at, row) in ROWS.iter().enumerate() {
        check_row(&rt, at, ends_so(&rt, row));
    }
}

/// The arguments of the process that runs the tests are not valid for `rdump`.
#[test]
fn arguments_of_another_program(rt: HostRuntime) {
    assert!(rt; rdump(&rt, NO_TERMINAL) == ExitStatus::StartupError);
}

#[test]
fn a_dates_file(rt: HostRuntime) -> Result<(), Fail> {
    fs::write(&rt, "asked", DATES)?;
    let status = run_dates(&rt, "asked", Some(("/usr", 2)));
    fs::remove_file(&rt, "asked")?;
    assert!(rt; status == ExitStatus::Success);
    Ok(())
}

/// A dump to an address without a server, of a payload that does not exist.
static DUMP: DumpLine<'static> = DumpLine {
    to: NOWHERE,
    device: "/dev/st0",
    timeout: None,
    fs: "/usr",
    level: 1,
    payload: "payload",
    spool: None,
    allow_empty: false,
    block: 2,
    dumpdates: "dumpdates",
    date: None,
    checkpoint: None,
    catalog: None,
    update: true,
    protect: false,
    retry: None,
    pause: Duration::ZERO,
};

#[test]
fn a_payload_that_is_not_there(rt: HostRuntime) {
    assert!(rt; run_dump(&rt, &DUMP, NO_TERMINAL) == ExitStatus::StartupError);
}

/// The operator's input is empty, so the dump is abandoned.
#[test]
fn a_dump_to_no_server(rt: HostRuntime) -> Result<(), Fail> {
    fs::write(&rt, "there", b"abc")?;
    let line = DumpLine {
        payload: "there",
        ..DUMP
    };
    let status = run_dump(&rt, &line, NO_TERMINAL);
    fs::remove_file(&rt, "there")?;
    assert!(rt; status == ExitStatus::Abnormal);
    Ok(())
}

/// The output file is removed if no label was read.
#[test]
fn a_volume_of_no_server(rt: HostRuntime) {
    let line = ReadLine {
        to: NOWHERE,
        device: "d",
        timeout: None,
        out: "volume",
    };
    assert!(rt; run_read(&rt, line, NO_TERMINAL) == ExitStatus::Abnormal);
    assert!(rt; fs::remove_file(&rt, "volume").is_err());
}

/// A dangling link stays, and the file that it leads to is removed.
#[test]
fn a_volume_of_no_server_by_a_link(rt: HostRuntime) -> Result<(), Fail> {
    let line = ReadLine {
        to: NOWHERE,
        device: "d",
        timeout: None,
        out: "led",
    };
    symlink(&rt, "far", "led")?;
    let status = run_read(&rt, line, NO_TERMINAL);
    fs::remove_file(&rt, "led")?;
    assert!(rt; status == ExitStatus::Abnormal);
    assert!(rt; fs::remove_file(&rt, "far").is_err());
    Ok(())
}

#[test]
fn an_operation_at_no_server(rt: HostRuntime) {
    let line = MtLine {
        to: NOWHERE,
        device: "d",
        timeout: None,
        op: 5,
        count: 1,
    };
    assert!(rt; run_mt(&rt, line) == ExitStatus::Abnormal);
}
