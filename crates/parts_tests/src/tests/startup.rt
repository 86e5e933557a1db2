//! Starts of `rmtd` with given arguments, over streams in memory, and the number of connections
//! still to serve.
//!
//! A function that passes the host's runtime to the start names its files and sockets in a local.
//! The borrow checker knows only the types that occur in a function's own text.

use rmt_wire::Counted;
use rmtd_serve::{Begun, ExitStatus, ServerSystem, begin, start};
use std::fs::{self, File};
use std::io;
use std::net::{TcpListener, TcpStream};
use std::rt::Env;

/// The arguments, the bytes that are read, the exit status, and the bytes that are written.
type Row = (&'static [&'static str], &'static [u8], u8, &'static [u8]);

static ROWS: [Row; 7] = [
    (
        &["rmtd", "--stdio", "--capacity=1024"],
        b"O/dev/st0\n2\nW5\nhelloI0\n1\nI5\n1\nR10\nR10\nC\n",
        0,
        b"A0\nA5\nA1\nA1\nA5\nhelloA0\nA0\n",
    ),
    (&["rmtd", "--stdio"], b"O/dev/st0\n2\nW5\nhel", 2, b"A0\n"),
    (&["rmtd", "--stdio"], b"O/dev/st0\n2\n?", 3, b"A0\n"),
    (&["rmtd"], b"C\n", 1, b""),
    (&["rmtd", "--stdio", "--capacity=-1"], b"C\n", 1, b""),
    (
        &["rmtd", "--stdio", "--bin=none/bin", "d=none/d"],
        b"C\n",
        1,
        b"",
    ),
    (&["rmtd", "--version"], b"C\n", 0, b""),
];

/// Whether a start goes as the row says.
fn is_done<R: ServerSystem>(rt: &R, row: &Row) -> bool {
    let (arguments, sent, status, wanted) = *row;
    let mut taken = Vec::new(rt.alloc());
    let mut input = Counted::new(sent);
    let mut output = Counted::new(&mut taken);
    let begun = begin(rt, arguments, &mut input, &mut output);
    matches!(begun, Ok(Begun::End(ended)) if ended.code() == status) && taken.as_slice() == wanted
}

#[test]
fn arguments_are_followed(rt: HostRuntime) {
    let _system: (Option<File>, Option<TcpListener>, Option<TcpStream>) = (None, None, None);
    for (at, row) in ROWS.iter().enumerate() {
        super::check_row(&rt, at, is_done(&rt, row));
    }
}

/// The arguments of a server with a drive in a folder.
static FOLDERS: [&str; 5] = [
    "rmtd",
    "--listen=127.0.0.1:0",
    "--connections=7",
    "--bin=.",
    "d=left",
];

/// Returns how many connections are still to serve after a start with these arguments.
fn left_by<R: ServerSystem>(rt: &R, arguments: &[&str]) -> io::Result<u64> {
    let mut output = Counted::new(Vec::new(rt.alloc()));
    let begun = begin(
        rt,
        arguments,
        &mut Counted::new(b"C\n".as_slice()),
        &mut output,
    )?;
    Ok(match &begun {
        Begun::Serve(_, listener_setup) => listener_setup.left,
        Begun::End(_) => 0,
    })
}

#[test]
fn connections_at_folders_are_left(rt: HostRuntime) -> io::Result<()> {
    let _system: (Option<File>, Option<TcpListener>, Option<TcpStream>) = (None, None, None);
    fs::create_dir(&rt, "left")?;
    assert!(rt; left_by(&rt, &FOLDERS)? == 7);
    Ok(())
}

/// Whether the arguments of the test program itself are refused.
fn is_refused<R: ServerSystem + Env>(rt: &R) -> io::Result<bool> {
    let mut output = Counted::new(Vec::new(rt.alloc()));
    let begun = start(rt, &mut Counted::new(b"C\n".as_slice()), &mut output)?;
    Ok(matches!(begun, Begun::End(ExitStatus::Failed)))
}

#[test]
fn a_start_by_other_arguments_ends(rt: HostRuntime) -> io::Result<()> {
    let _system: (Option<File>, Option<TcpListener>, Option<TcpStream>) = (None, None, None);
    assert!(rt; is_refused(&rt)?);
    Ok(())
}
