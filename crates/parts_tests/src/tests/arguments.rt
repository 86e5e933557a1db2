//! The arguments of both programs.

use rdump_args::{dump_error, rdump_args};
use rmtd_args::{server_line, server_words};
use std::alloc::Global;
use std::fmt::{Debug, Display};
use std::test::Fail;

/// Whether a value has this text.
fn is_shown<T: Debug>(alloc: Global, value: &T, wanted: &str) -> bool {
    match format!(in alloc; "{value:?}") {
        Ok(text) => text.as_str() == wanted,
        Err(_) => false,
    }
}

/// Arguments of `rdump`, and the text of what is read from them.
type Row = (&'static [&'static str], &'static str);

static ROWS: [Row; 15] = [
    (
        &["rdump", "dates", "--file", "f"],
        "Ok(Dates { file: \"f\", asked: None })",
    ),
    (
        &["rdump", "dates", "--level=9", "--name", "/usr", "--file=f"],
        "Ok(Dates { file: \"f\", asked: Some((\"/usr\", 9)) })",
    ),
    (
        &[
            "rdump",
            "dump",
            "--to",
            "h:1",
            "--device",
            "d",
            "--fs",
            "/usr",
            "--level",
            "1",
            "--payload",
            "p",
            "--block",
            "1024",
            "--dumpdates=f",
            "--timeout=9223372036854775807",
            "--date=9223372036854775807",
            "--checkpoint=c",
            "--catalog=s",
            "--update",
            "--protect",
            "--retry=1000000",
            "--pause=86400",
        ],
        "Ok(Dump(DumpLine { to: \"h:1\", device: \"d\", timeout: Some(9223372036854775807s), fs: \"/usr\", level: 1, payload: \"p\", spool: None, allow_empty: false, block: 1024, dumpdates: \"f\", date: Some(9223372036854775807), checkpoint: Some(\"c\"), catalog: Some(\"s\"), update: true, protect: true, retry: Some(1000000), pause: 86400s }))",
    ),
    (
        &[
            "rdump", "read", "--to", "h:1", "--device", "d", "--out", "o",
        ],
        "Ok(Read(ReadLine { to: \"h:1\", device: \"d\", timeout: None, out: \"o\" }))",
    ),
    (
        &[
            "rdump",
            "ls",
            "b",
            "--dumpdates=f",
            "--blocks",
            "2147483647",
            "--catalog",
            "s",
            "a",
            "--fs=/usr",
            "--level=9",
            "--date=7",
        ],
        "Ok(List(ListLine { reels: Paths([\"b\", \"a\"]), dumpdates: Some(\"f\"), blocks: Some(2147483647), catalog: Some(\"s\"), wanted: Some(WantedDumps { name: Some(\"/usr\"), level: Some(9), date: Some(7) }) }))",
    ),
    (
        &["rdump", "ls", "--device", "d", "--to", "h:1"],
        "Ok(List(ListLine { reels: Drive { to: \"h:1\", device: \"d\", timeout: None }, dumpdates: None, blocks: None, catalog: None, wanted: None }))",
    ),
    (
        &["rdump", "ls", "--device=d", "--to=h:1", "--catalog=s"],
        "Ok(List(ListLine { reels: Drive { to: \"h:1\", device: \"d\", timeout: None }, dumpdates: None, blocks: None, catalog: Some(\"s\"), wanted: None }))",
    ),
    (
        &[
            "rdump",
            "fetch",
            "--to=h:1",
            "--device=d",
            "--into=f",
            "--catalog=c",
        ],
        "Ok(Fetch(FetchLine { to: \"h:1\", device: \"d\", timeout: None, into: \"f\", catalog: Some(\"c\") }))",
    ),
    (
        &["rdump", "cat", "r", "--level=0", "--length=5"],
        "Ok(Cat(CatLine { paths: [\"r\"], name: None, level: Some(0), date: None, catalogs: [], length: Some(5), is_partial: false }))",
    ),
    (
        &["rdump", "cat", "--catalog=d", "r", "--catalog", "c"],
        "Ok(Cat(CatLine { paths: [\"r\"], name: None, level: None, date: None, catalogs: [\"d\", \"c\"], length: None, is_partial: false }))",
    ),
    (
        &[
            "rdump",
            "mt",
            "--to=h:1",
            "--device=d",
            "offline",
            "2147483647",
        ],
        "Ok(Mt(MtLine { to: \"h:1\", device: \"d\", timeout: None, op: 6, count: 2147483647 }))",
    ),
    (
        &[
            "rdump",
            "dump",
            "--to=unix:/s",
            "--timeout",
            "1",
            "--device=d",
            "--fs=/",
            "--level=0",
            "--payload",
            "-",
            "--spool=s",
            "--allow-empty",
            "--block=1",
            "--dumpdates=f",
            "--retry",
            "1",
        ],
        "Ok(Dump(DumpLine { to: \"unix:/s\", device: \"d\", timeout: Some(1s), fs: \"/\", level: 0, payload: \"-\", spool: Some(\"s\"), allow_empty: true, block: 1, dumpdates: \"f\", date: None, checkpoint: None, catalog: None, update: false, protect: false, retry: Some(1), pause: 60s }))",
    ),
    (
        &[
            "rdump",
            "read",
            "--to=unix:/s",
            "--device=d",
            "--timeout=0",
            "--out=o",
        ],
        "Ok(Read(ReadLine { to: \"unix:/s\", device: \"d\", timeout: None, out: \"o\" }))",
    ),
    (
        &[
            "rdump",
            "ls",
            "--timeout=003600",
            "--to=unix:/s:1",
            "--device=d",
        ],
        "Ok(List(ListLine { reels: Drive { to: \"unix:/s:1\", device: \"d\", timeout: Some(3600s) }, dumpdates: None, blocks: None, catalog: None, wanted: None }))",
    ),
    (
        &[
            "rdump",
            "mt",
            "--to=unix:/s",
            "--device=d",
            "--timeout=60",
            "nop",
            "0",
        ],
        "Ok(Mt(MtLine { to: \"unix:/s\", device: \"d\", timeout: Some(60s), op: 7, count: 0 }))",
    ),
];

#[test]
fn arguments_of_the_client(rt: HostRuntime) {
    for (arguments, wanted) in &ROWS {
        let read = rdump_args(rt.alloc(), arguments);
        assert!(rt; is_shown(rt.alloc(), &read, wanted));
    }
}

/// Arguments that are refused, and the first line of the message.
static REFUSED: [Row; 22] = [
    (
        &["rdump", "ls"],
        "error: a FILE or a FOLDER is required, or --to and --device",
    ),
    (
        &["rdump", "ls", "a", "--to=h:1", "--device=d"],
        "error: a FILE or a FOLDER is given, or --to and --device, and not both",
    ),
    (
        &["rdump", "ls", "--to=h", "--device=d"],
        "error: invalid value for '--to <ADDRESS>': an address is a host and a port, as in localhost:4711 or [::1]:4711, or unix: and an absolute path, as in unix:/run/rmtd/socket",
    ),
    (
        &["rdump", "ls", "--to=h:1", "--device="],
        "error: invalid value for '--device <DEVICE>': a device is 1 to 255 bytes of one line",
    ),
    (
        &["rdump", "ls", "a", "--dumpdates=f", "--blocks=2147483648"],
        "error: invalid value for '--blocks <N>': a dump has 0 to 2147483647 blocks, in digits",
    ),
    (
        &["rdump", "ls", "a", "--blocks=5"],
        "error: the following required arguments were not provided:",
    ),
    (
        &["rdump", "ls", "a", "--fs=/"],
        "error: --fs, --level and --date are given with --catalog only",
    ),
    (
        &["rdump", "cat", "a"],
        "error: --catalog, --length or --partial is required",
    ),
    (
        &["rdump", "cat", "a", "--catalog=c", "--length=5"],
        "error: --catalog or --length is given, and not both",
    ),
    (
        &["rdump", "ls", "--to=h:1"],
        "error: the following required arguments were not provided:",
    ),
    (
        &[
            "rdump",
            "read",
            "--to=h:1",
            "--device=d",
            "--out=o",
            "--all",
        ],
        "error: unexpected argument '--all' found",
    ),
    (
        &["rdump", "ls", "a", "--timeout=1"],
        "error: the following required arguments were not provided:",
    ),
    (
        &["rdump", "ls", "--to=h:1", "--device=d", "--timeout=1s"],
        "error: invalid value for '--timeout <SECONDS>': a number is 0 to 9223372036854775807 in digits",
    ),
    (
        &[
            "rdump",
            "mt",
            "--to=h:1",
            "--device=d",
            "--timeout=9223372036854775808",
            "nop",
            "0",
        ],
        "error: invalid value for '--timeout <SECONDS>': a number is 0 to 9223372036854775807 in digits",
    ),
    (
        &[
            "rdump",
            "read",
            "--to=h:1",
            "--device=d",
            "--out=o",
            "--timeout=",
        ],
        "error: invalid value for '--timeout <SECONDS>': a number is 0 to 9223372036854775807 in digits",
    ),
    (
        &[
            "rdump",
            "dump",
            "--to=h:1",
            "--device=d",
            "--fs=/",
            "--level=0",
            "--block=1",
            "--dumpdates=f",
            "--payload=p",
            "--spool=s",
        ],
        "error: --spool and --allow-empty are given with --payload - only",
    ),
    (
        &[
            "rdump",
            "dump",
            "--to=h:1",
            "--device=d",
            "--fs=/",
            "--level=0",
            "--block=1",
            "--dumpdates=f",
            "--payload=./-",
            "--allow-empty",
        ],
        "error: --spool and --allow-empty are given with --payload - only",
    ),
    (
        &[
            "rdump",
            "dump",
            "--to=h:1",
            "--device=d",
            "--fs=/",
            "--level=0",
            "--block=1",
            "--dumpdates=f",
            "--payload=-",
            "--spool=s",
            "--checkpoint=c",
        ],
        "error: --spool or --checkpoint is given, and not both",
    ),
    (
        &[
            "rdump",
            "dump",
            "--to=h:1",
            "--device=d",
            "--fs=/",
            "--level=0",
            "--block=1",
            "--dumpdates=f",
            "--payload=p",
            "--pause=1",
        ],
        "error: the following required arguments were not provided:",
    ),
    (
        &[
            "rdump",
            "dump",
            "--to=h:1",
            "--device=d",
            "--fs=/",
            "--level=0",
            "--block=1",
            "--dumpdates=f",
            "--payload=p",
            "--retry=0",
        ],
        "error: invalid value for '--retry <TIMES>': it is 1 to 1000000, in digits",
    ),
    (
        &[
            "rdump",
            "dump",
            "--to=h:1",
            "--device=d",
            "--fs=/",
            "--level=0",
            "--block=1",
            "--dumpdates=f",
            "--payload=p",
            "--retry=1000001",
        ],
        "error: invalid value for '--retry <TIMES>': it is 1 to 1000000, in digits",
    ),
    (
        &[
            "rdump",
            "dump",
            "--to=h:1",
            "--device=d",
            "--fs=/",
            "--level=0",
            "--block=1",
            "--dumpdates=f",
            "--payload=p",
            "--retry=1",
            "--pause=86401",
        ],
        "error: invalid value for '--pause <SECONDS>': a pause is 0 to 86400 seconds, in digits",
    ),
];

/// Whether the arguments are refused, with this first line of the message.
fn is_told(alloc: Global, arguments: &[&str], wanted: &str) -> bool {
    match rdump_args(alloc, arguments) {
        Ok(_) => false,
        Err(error) => begins(alloc, &error, wanted),
    }
}

/// Whether this is the first line of an error.
fn begins<E: Display>(alloc: Global, error: &E, wanted: &str) -> bool {
    match format!(in alloc; "{error}") {
        Ok(text) => text.as_str().lines().next() == Some(wanted),
        Err(_) => false,
    }
}

#[test]
fn arguments_that_break_a_rule(rt: HostRuntime) {
    for (arguments, wanted) in &REFUSED {
        assert!(rt; is_told(rt.alloc(), arguments, wanted));
    }
}

/// Addresses without a host or a port, IPv6 addresses without brackets, and Unix sockets without an
/// absolute path.
static ADDRESSES: [&str; 16] = [
    "unix:",
    "unix:s",
    "unix:@s",
    "/s",
    "h",
    "h:",
    ":1",
    "h:65536",
    "h:+1",
    "h:1:x",
    "4711",
    "127.0.0.1",
    "::1",
    "::1:4711",
    "[::1]",
    "[::1:4711",
];

/// Whether the arguments of a read at this address are refused.
fn is_refused(alloc: Global, address: &str) -> bool {
    let arguments = [
        "rdump", "read", "--to", address, "--device", "d", "--out", "o",
    ];
    rdump_args(alloc, &arguments).is_err()
}

#[test]
fn addresses_that_are_none(rt: HostRuntime) {
    for address in &ADDRESSES {
        assert!(rt; is_refused(rt.alloc(), address));
    }
}

#[test]
fn an_address_within_brackets(rt: HostRuntime) {
    assert!(rt; !is_refused(rt.alloc(), "[::1]:4711"));
}

/// Returns the address of a Unix socket whose path has this many bytes, at least one.
fn address_with(alloc: Global, path_bytes: usize) -> Result<String, Fail> {
    let mut address = String::from_str(alloc, "unix:/")?;
    for _ in 1..path_bytes {
        address.push('s')?;
    }
    Ok(address)
}

/// The path of a Unix socket has a greatest length.
#[test]
fn long_paths(rt: HostRuntime) -> Result<(), Fail> {
    let longest = address_with(rt.alloc(), 107)?;
    assert!(rt; !is_refused(rt.alloc(), longest.as_str()));
    let long = address_with(rt.alloc(), 108)?;
    let arguments = [
        "rdump",
        "mt",
        "--device=d",
        "nop",
        "0",
        "--to",
        long.as_str(),
    ];
    let wanted =
        "error: invalid value for '--to <ADDRESS>': the path of a Unix socket has at most 107 bytes";
    assert!(rt; is_told(rt.alloc(), &arguments, wanted));
    Ok(())
}

#[test]
fn a_value_past_a_limit(rt: HostRuntime) {
    let told = dump_error(rt.alloc(), "--level 10: a level is 0 to 9");
    assert!(rt; matches!(&told, Ok(error) if error.use_stderr()));
}

/// Arguments of `rmtd` with a drive.
static DRIVE: [&str; 8] = [
    "rmtd",
    "/dev/st0=/srv/a=b",
    "--connections",
    "007",
    "--idle=3600",
    "--listen=127.0.0.1:0",
    "--capacity=9223372036854775807",
    "--bin=/bin",
];

#[test]
fn arguments_of_the_server(rt: HostRuntime) {
    let read = server_line(rt.alloc(), &DRIVE);
    let wanted =
        "Ok(ServerLine { stdio: false, listen: Some(\"127.0.0.1:0\"), capacity: 9223372036854775807, connections: Some(7), idle: Some(3600s), bin: Some(\"/bin\"), drives: [DriveArgument { device: \"/dev/st0\", folder: \"/srv/a=b\" }] })";
    assert!(rt; is_shown(rt.alloc(), &read, wanted));
}

/// Arguments of `rmtd` with a limit of 0 seconds, which is no limit.
static UNLIMITED: [&str; 3] = ["rmtd", "--listen=unix:/run/rmtd/socket", "--idle=0"];

#[test]
fn no_limit_for_idle_connections(rt: HostRuntime) {
    let read = server_line(rt.alloc(), &UNLIMITED);
    let wanted =
        "Ok(ServerLine { stdio: false, listen: Some(\"unix:/run/rmtd/socket\"), capacity: 1048576, connections: None, idle: None, bin: None, drives: [] })";
    assert!(rt; is_shown(rt.alloc(), &read, wanted));
}

/// Arguments of `rmtd` that break a rule of `--idle`, and the first line of the error.
static NOT_IDLE: [Row; 3] = [
    (
        &["rmtd", "--listen=h:1", "--idle=1s"],
        "error: invalid value for '--idle <SECONDS>': a number is 0 to 9223372036854775807 in digits",
    ),
    (
        &["rmtd", "--stdio", "--idle=60"],
        "error: --idle is given with --listen only",
    ),
    (
        &["rmtd", "--idle=0", "--stdio"],
        "error: --idle is given with --listen only",
    ),
];

#[test]
fn limits_that_are_refused(rt: HostRuntime) {
    for (at, (arguments, wanted)) in NOT_IDLE.iter().enumerate() {
        let is_told = match server_line(rt.alloc(), arguments) {
            Ok(_) => false,
            Err(error) => begins(rt.alloc(), &error, wanted),
        };
        super::check_row(&rt, at, is_told);
    }
}

/// Arguments of `rmtd` without a drive.
static STDIO: [&str; 2] = ["rmtd", "--stdio"];

#[test]
fn arguments_and_what_they_say(rt: HostRuntime) {
    let read = server_words(rt.alloc(), &STDIO);
    let wanted =
        "Ok(ServerLine { stdio: true, listen: None, capacity: 1048576, connections: None, idle: None, bin: None, drives: [] })";
    assert!(rt; is_shown(rt.alloc(), &read, wanted));
}
