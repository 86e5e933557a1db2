//! The arguments of `rdump ls`.
ghost use Rattle.std.specs.Prelude.{◌≤◌, ◌<◌, ◌≡◌, IfOk, IfSome, IsSome, length};
ghost use Rattle.rdump_args.specs.Rdump.{IsListLine, IsListedReels, IsWantedDumps};

use crate::argument::{ArgumentSpec, Form};
use crate::cat_line::{date_in, level_in};
use crate::drive::drive_of;
use crate::fault::ArgumentFault;
use crate::timeout::timeout_of;
use clap::ArgMatches;
use rmt_wire::NUMBER_LIMIT;
use rmt_wire::argument::number_of;
use std::alloc::Global;
use std::time::Duration;

/// The parsed arguments of `rdump ls`.
#[derive(Debug, Drop)]
pub struct ListLine<'a> {
    /// The reels to list.
    pub reels: ListedReels<'a>,
    /// The dumpdates file with the dumps to look for on these reels, or None to look for none.
    pub dumpdates: Option<&'a str>,
    /// How many blocks each of those dumps has, up to `rmt_wire::NUMBER_LIMIT`, or None if no
    /// argument gives it. It is given only with a dumpdates file.
    pub blocks: Option<u64>,
    /// The path of the catalog to compare each reel with, or None to compare none.
    pub catalog: Option<&'a str>,
    /// The dumps of the catalog to look for, or None to look for those of which there is a reel. It
    /// is given only with a catalog.
    pub wanted: Option<WantedDumps<'a>>,
}

/// Dumps that have these values.
#[derive(Clone, Copy, Debug)]
pub struct WantedDumps<'a> {
    /// The name of the dumped file system, or None for any.
    pub name: Option<&'a str>,
    /// The level, 0 to 9, or None for any.
    pub level: Option<u8>,
    /// The date in seconds since the beginning of 1970 (UTC), at most 9223372036854775807, or None
    /// for any.
    pub date: Option<u64>,
}

/// The reels that `rdump ls` lists.
#[derive(Debug, Drop)]
pub enum ListedReels<'a> {
    /// The record files at these paths, and those in the folders among them. There is at least one
    /// path.
    Paths(Vec<&'a str>),
    /// The first reel of a drive's stack.
    Drive {
        /// The address that the server listens at: a host and a port, or `unix:` and a path.
        to: &'a str,
        /// The device of the drive at the server: 1 to 255 bytes of one line.
        device: &'a str,
        /// How long to wait for the server, or None for no limit.
        timeout: Option<Duration>,
    },
}

const NO_REEL: &str = "a FILE or a FOLDER is required, or --to and --device";

const BOTH_KINDS: &str = "a FILE or a FOLDER is given, or --to and --device, and not both";

const HALF_A_DRIVE: &str = "--to and --device are given together or not at all";

const BLOCKS_ALONE: &str = "--blocks is given with --dumpdates only";

const DUMPS_ALONE: &str = "--fs, --level and --date are given with --catalog only";

const BAD_BLOCKS: &str =
    "invalid value for '--blocks <N>': a dump has 0 to 2147483647 blocks, in digits";

pub(crate) fn list_in<'a>(
    alloc: Global,
    matches: &ArgMatches<'a>,
) -> Result<ListLine<'a>, ArgumentFault>
    ensures { IfOk result IsListLine }
{
    let dumpdates = matches.get_str("dumpdates");
    let blocks = blocks_of(matches.get_str("blocks"), dumpdates)?;
    let wanted = wanted_in(matches)?;
    match reels_in(alloc, matches) {
        Ok(reels) => Ok(ListLine {
            reels,
            dumpdates,
            blocks,
            catalog: matches.get_str("catalog"),
            wanted,
        }),
        Err(fault) => Err(fault),
    }
}

fn wanted_in<'a>(matches: &ArgMatches<'a>) -> Result<Option<WantedDumps<'a>>, ArgumentFault>
    ensures { IfOk result (λ wanted. IfSome wanted IsWantedDumps) }
{
    let name = matches.get_str("fs");
    let level = level_in(matches.get_str("level"))?;
    let date = date_in(matches.get_str("date"))?;
    if name.is_none() && level.is_none() && date.is_none() {
        return Ok(None);
    }
    if matches.get_str("catalog").is_none() {
        return Err(ArgumentFault::Missing(DUMPS_ALONE));
    }
    Ok(Some(WantedDumps { name, level, date }))
}

fn blocks_of(text: Option<&str>, dumpdates: Option<&str>) -> Result<Option<u64>, ArgumentFault>
    ensures { IfOk result (λ blocks. IfSome blocks (λ n. (n ≤ NUMBER_LIMIT) × IsSome dumpdates.entry)) }
{
    match (text, dumpdates) {
        (None, _) => Ok(None),
        (Some(_), None) => Err(ArgumentFault::Missing(BLOCKS_ALONE)),
        (Some(text), Some(_)) => match number_of(text) {
            Some(blocks) if blocks <= u64::from(NUMBER_LIMIT) => Ok(Some(blocks)),
            _ => Err(ArgumentFault::Value(BAD_BLOCKS)),
        },
    }
}

fn reels_in<'a>(alloc: Global, matches: &ArgMatches<'a>) -> Result<ListedReels<'a>, ArgumentFault>
    ensures { IfOk result IsListedReels }
{
    let drive = (matches.get_str("to"), matches.get_str("device"));
    let timeout = matches.get_str("timeout");
    match matches.get_strs("path") {
        Some(paths) => reels_of(alloc, paths, drive, timeout),
        None => reels_of(alloc, &[], drive, timeout),
    }
}

fn reels_of<'a>(
    alloc: Global,
    paths: &[&'a str],
    drive: (Option<&'a str>, Option<&'a str>),
    timeout: Option<&'a str>,
) -> Result<ListedReels<'a>, ArgumentFault>
    ensures { IfOk result IsListedReels }
{
    match (paths.is_empty(), drive) {
        (true, (Some(to), Some(device))) => drive_reel(to, device, timeout),
        (true, (None, None)) => Err(ArgumentFault::Missing(NO_REEL)),
        (true, _) => Err(ArgumentFault::Missing(HALF_A_DRIVE)),
        (false, (None, None)) => path_reels(alloc, paths),
        (false, _) => Err(ArgumentFault::Conflict(BOTH_KINDS)),
    }
}

fn drive_reel<'a>(
    to: &'a str,
    device: &'a str,
    timeout: Option<&str>,
) -> Result<ListedReels<'a>, ArgumentFault>
    ensures { IfOk result IsListedReels }
{
    let (to, device) = drive_of(to, device)?;
    let timeout = timeout_of(timeout)?;
    Ok(ListedReels::Drive {
        to,
        device,
        timeout,
    })
}

fn path_reels<'a>(alloc: Global, paths: &[&'a str]) -> Result<ListedReels<'a>, ArgumentFault>
    requires { 0 < length paths.now }
    ensures { IfOk result IsListedReels }
{
    match Vec::from_slice(alloc, paths) {
        Ok(paths) => Ok(ListedReels::Paths(paths)),
        Err(_) => Err(ArgumentFault::OutOfMemory),
    }
}

pub(crate) static LIST_ARGUMENTS: [ArgumentSpec; 10] = [
    ArgumentSpec {
        name: "path",
        value: "FILE|FOLDER",
        help: "A record file, or a folder of record files",
        form: Form::Many,
        missing: "",
    },
    ArgumentSpec {
        form: Form::With("device"),
        missing: "",
        ..ArgumentSpec::TO
    },
    ArgumentSpec {
        form: Form::With("to"),
        missing: "",
        ..ArgumentSpec::DEVICE
    },
    ArgumentSpec {
        form: Form::With("to"),
        ..ArgumentSpec::TIMEOUT
    },
    ArgumentSpec {
        name: "dumpdates",
        value: "FILE",
        help: "Tell of each dump of this dumpdates file which of its volumes are there",
        form: Form::Optional,
        missing: "",
    },
    ArgumentSpec {
        name: "blocks",
        value: "N",
        help: "Of how many blocks each of these dumps is, 0 to 2147483647",
        form: Form::With("dumpdates"),
        missing: "",
    },
    ArgumentSpec {
        name: "catalog",
        value: "FILE",
        help: "Compare each reel with this catalog, and tell of each dump what is there",
        form: Form::Optional,
        missing: "",
    },
    ArgumentSpec {
        name: "fs",
        value: "NAME",
        help: "Tell only of dumps of this file system, also if no reel is there",
        form: Form::Optional,
        missing: "",
    },
    ArgumentSpec {
        name: "level",
        value: "LEVEL",
        help: "Tell only of dumps of this level, 0 to 9",
        form: Form::Optional,
        missing: "",
    },
    ArgumentSpec {
        name: "date",
        value: "SECONDS",
        help: "Tell only of dumps of this date, in seconds since 1970",
        form: Form::Optional,
        missing: "",
    },
];
