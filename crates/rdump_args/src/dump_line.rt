//! The arguments of `rdump dump`.
ghost use Rattle.std.specs.Prelude.{◌≤◌, IfOk, IfSome};
ghost use Rattle.rdump_args.specs.Rdump.{IsInputPlace, IsRdumpLine};
ghost use Rattle.rmt_wire.specs.declared.argument.TheConstants.{ARGUMENT_LIMIT};

use crate::argument::{ArgumentSpec, Form, is_given, value_in};
use crate::drive::address_in;
use crate::fault::ArgumentFault;
use crate::rdump_line::RdumpLine;
use crate::retry::{pause_of, retry_of};
use crate::timeout::timeout_of;
use clap::ArgMatches;
use rmt_wire::argument::number_of;
use std::time::Duration;

/// The payload that stands for standard input.
pub const STANDARD_INPUT: &str = "-";

/// The parsed arguments of `rdump dump`. Whether a run can have this device, name, level, block
/// size and date is not checked here; each of these numbers is 0 to 9223372036854775807.
#[derive(Clone, Copy, Debug)]
pub struct DumpLine<'a> {
    /// The address that the server listens at: a host and a port, or `unix:` and a path.
    pub to: &'a str,
    /// The device of the drive at the server.
    pub device: &'a str,
    /// How long to wait for the server, or None for no limit.
    pub timeout: Option<Duration>,
    /// The name of the file system.
    pub fs: &'a str,
    /// The level of the dump.
    pub level: u64,
    /// The path of the payload, or `STANDARD_INPUT`.
    pub payload: &'a str,
    /// The path of the folder that standard input is read into, or None to take that of
    /// `dumpdates`. It is given only if the payload is standard input and there is no checkpoint.
    pub spool: Option<&'a str>,
    /// Whether standard input may be without a byte. True only if the payload is standard input.
    pub allow_empty: bool,
    /// The size of a block in bytes.
    pub block: u64,
    /// The path of the dumpdates file.
    pub dumpdates: &'a str,
    /// The date of the dump, in seconds since 1970 began, UTC, or None to take the clock's.
    pub date: Option<u64>,
    /// The path of the file that keeps the checkpoint, or None to keep none.
    pub checkpoint: Option<&'a str>,
    /// The path of the catalog, or None to keep none.
    pub catalog: Option<&'a str>,
    /// Whether to enter the dump in the dumpdates file once it is complete.
    pub update: bool,
    /// Whether each attempt first looks at the reel, and never writes on a reel of another dump.
    pub protect: bool,
    /// How many failures in a row are answered by another attempt, 1 to `MOST_RETRIES`, or None to
    /// ask the operator.
    pub retry: Option<u32>,
    /// How long to wait before such an attempt, up to `MOST_PAUSE` seconds.
    pub pause: Duration,
}

const BAD_LEVEL: &str = "invalid value for '--level <LEVEL>': a level is 0 to 9, in digits";

const BAD_BLOCK: &str =
    "invalid value for '--block <BYTES>': a block is 1 to 262144 bytes, in digits";

const BAD_DATE: &str =
    "invalid value for '--date <SECONDS>': a date is 0 to 253402300799, in digits";

const INPUT_ALONE: &str = "--spool and --allow-empty are given with --payload - only";

const TWO_PLACES: &str = "--spool or --checkpoint is given, and not both";

pub(crate) fn dump_in<'a>(matches: &ArgMatches<'a>) -> Result<RdumpLine<'a>, ArgumentFault>
    ensures { IfOk result IsRdumpLine }
{
    let to = address_in(matches)?;
    let timeout = timeout_of(matches.get_str("timeout"))?;
    let retry = retry_of(matches.get_str("retry"))?;
    let pause = pause_of(matches.get_str("pause"))?;
    let payload = value_in(matches, "payload");
    let checkpoint = matches.get_str("checkpoint");
    let allow_empty = is_given(matches, "allow-empty");
    let spool = spool_of(matches.get_str("spool"), payload, checkpoint, allow_empty)?;
    match numbers_in(
        value_in(matches, "level"),
        value_in(matches, "block"),
        matches.get_str("date"),
    ) {
        Ok((level, block, date)) => Ok(RdumpLine::Dump(DumpLine {
            to,
            device: value_in(matches, "device"),
            timeout,
            fs: value_in(matches, "fs"),
            level,
            payload,
            spool,
            allow_empty,
            block,
            dumpdates: value_in(matches, "dumpdates"),
            date,
            checkpoint,
            catalog: matches.get_str("catalog"),
            update: is_given(matches, "update"),
            protect: is_given(matches, "protect"),
            retry,
            pause,
        })),
        Err(fault) => Err(fault),
    }
}

fn spool_of<'a>(
    spool: Option<&'a str>,
    payload: &str,
    checkpoint: Option<&str>,
    allow_empty: bool,
) -> Result<Option<&'a str>, ArgumentFault>
    ensures { IfOk result (λ spool. IsInputPlace payload.now spool checkpoint.entry allow_empty) }
{
    if payload != STANDARD_INPUT && (spool.is_some() || allow_empty) {
        return Err(ArgumentFault::Missing(INPUT_ALONE));
    }
    if spool.is_some() && checkpoint.is_some() {
        return Err(ArgumentFault::Conflict(TWO_PLACES));
    }
    Ok(spool)
}

fn numbers_in(
    level: &str,
    block: &str,
    date: Option<&str>,
) -> Result<(u64, u64, Option<u64>), ArgumentFault>
    ensures { IfOk result (λ found. (found.0 ≤ ARGUMENT_LIMIT) × (found.1 ≤ ARGUMENT_LIMIT)
        × IfSome found.2 (λ n. n ≤ ARGUMENT_LIMIT)) }
{
    let Some(level) = number_of(level) else {
        return Err(ArgumentFault::Value(BAD_LEVEL));
    };
    let Some(block) = number_of(block) else {
        return Err(ArgumentFault::Value(BAD_BLOCK));
    };
    match date_in(date) {
        Some(date) => Ok((level, block, date)),
        None => Err(ArgumentFault::Value(BAD_DATE)),
    }
}

/// The outer None means that the text is not a number.
fn date_in(text: Option<&str>) -> Option<Option<u64>>
    ensures { IfSome result (λ date. IfSome date (λ n. n ≤ ARGUMENT_LIMIT)) }
{
    match text {
        Some(text) => Some(Some(number_of(text)?)),
        None => Some(None),
    }
}

pub(crate) static DUMP_ARGUMENTS: [ArgumentSpec; 17] = [
    ArgumentSpec::TO,
    ArgumentSpec::DEVICE,
    ArgumentSpec::TIMEOUT,
    ArgumentSpec {
        name: "fs",
        value: "NAME",
        help: "The name of the file system",
        form: Form::Required,
        missing: "--fs is required",
    },
    ArgumentSpec {
        name: "level",
        value: "LEVEL",
        help: "The level of the dump, 0 to 9",
        form: Form::Required,
        missing: "--level is required",
    },
    ArgumentSpec {
        name: "payload",
        value: "FILE",
        help: "What is dumped; - is standard input, and ./- a file of that name",
        form: Form::Required,
        missing: "--payload is required",
    },
    ArgumentSpec {
        name: "spool",
        value: "DIR",
        help: "The folder that standard input is read into [default: that of --dumpdates]",
        form: Form::Optional,
        missing: "",
    },
    ArgumentSpec {
        name: "allow-empty",
        value: "",
        help: "Dump standard input also if it has no byte",
        form: Form::Flag,
        missing: "",
    },
    ArgumentSpec {
        name: "block",
        value: "BYTES",
        help: "The size of a block, 1 to 262144",
        form: Form::Required,
        missing: "--block is required",
    },
    ArgumentSpec {
        name: "dumpdates",
        value: "FILE",
        help: "The dumpdates file; a missing one is empty",
        form: Form::Required,
        missing: "--dumpdates is required",
    },
    ArgumentSpec {
        name: "date",
        value: "SECONDS",
        help: "The date of the dump in seconds since 1970 [default: the clock's]",
        form: Form::Optional,
        missing: "",
    },
    ArgumentSpec {
        name: "checkpoint",
        value: "FILE",
        help: "Keep there what is counted; where it is there, go on from it",
        form: Form::Optional,
        missing: "",
    },
    ArgumentSpec {
        name: "catalog",
        value: "FILE",
        help: "Enter the dump and the SHA-256 of each counted volume in this catalog",
        form: Form::Optional,
        missing: "",
    },
    ArgumentSpec {
        name: "update",
        value: "",
        help: "Enter the dump in the dumpdates file once it is complete",
        form: Form::Flag,
        missing: "",
    },
    ArgumentSpec {
        name: "protect",
        value: "",
        help: "Write on no reel that another dump, or anyone else, has written",
        form: Form::Flag,
        missing: "",
    },
    ArgumentSpec {
        name: "retry",
        value: "TIMES",
        help: "Answer up to this many failures in a row by another attempt, 1 to 1000000",
        form: Form::Optional,
        missing: "",
    },
    ArgumentSpec {
        name: "pause",
        value: "SECONDS",
        help: "How long to wait before such an attempt, 0 to 86400 [default: 60]",
        form: Form::With("retry"),
        missing: "",
    },
];
