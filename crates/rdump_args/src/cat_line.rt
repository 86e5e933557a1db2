//! The arguments of `rdump cat`.
ghost use Rattle.std.specs.Prelude.{◌≡◌, ◌≤◌, ◌<◌, IfOk, IfSome, length};
ghost use Rattle.rdump_args.specs.Rdump.{IsCatLine, IsOneGiven};
ghost use Rattle.rmt_wire.specs.declared.argument.TheConstants.{ARGUMENT_LIMIT};

use crate::argument::{ArgumentSpec, Form, is_given};
use crate::dates_line::level_of;
use crate::fault::ArgumentFault;
use clap::ArgMatches;
use rmt_wire::argument::number_of;
use std::alloc::Global;

/// The parsed arguments of `rdump cat`.
#[derive(Debug, Drop)]
pub struct CatLine<'a> {
    /// The record files, and folders of record files. There is at least one path.
    pub paths: Vec<&'a str>,
    /// The name of the dumped file system, or None for any.
    pub name: Option<&'a str>,
    /// The level of the dump, 0 to 9, or None for any.
    pub level: Option<u8>,
    /// The date of the dump in seconds since the beginning of 1970 (UTC), at most
    /// 9223372036854775807, or None for any.
    pub date: Option<u64>,
    /// The paths of the catalogs, in the order in which they are given. There may be none.
    pub catalogs: Vec<&'a str>,
    /// The length of the payload in bytes, at most 9223372036854775807, or None if it is not given.
    /// It is given if there is neither a catalog nor `--partial`, and never with a catalog.
    pub length: Option<u64>,
    /// Whether a payload is written of which parts are missing.
    pub is_partial: bool,
}

const NO_REEL: &str = "a FILE or a FOLDER is required";

const NO_LENGTH: &str = "--catalog, --length or --partial is required";

const TWO_LENGTHS: &str = "--catalog or --length is given, and not both";

const BAD_LEVEL: &str = "invalid value for '--level <LEVEL>': a level is one digit, 0 to 9";

const BAD_DATE: &str =
    "invalid value for '--date <SECONDS>': a date is 0 to 253402300799, in digits";

const BAD_LENGTH: &str =
    "invalid value for '--length <BYTES>': the length is 0 to 9223372036854775807, in digits";

pub(crate) fn cat_in<'a>(
    alloc: Global,
    matches: &ArgMatches<'a>,
) -> Result<CatLine<'a>, ArgumentFault>
    ensures { IfOk result IsCatLine }
{
    let level = level_in(matches.get_str("level"))?;
    let date = date_in(matches.get_str("date"))?;
    let catalogs = catalogs_in(alloc, matches)?;
    let is_partial = is_given(matches, "partial");
    let length = length_in(matches.get_str("length"), &catalogs, is_partial)?;
    let paths = match matches.get_strs("path") {
        Some(paths) => paths_of(alloc, paths)?,
        None => return Err(ArgumentFault::Missing(NO_REEL)),
    };
    Ok(CatLine {
        paths,
        name: matches.get_str("fs"),
        level,
        date,
        catalogs,
        length,
        is_partial,
    })
}

fn paths_of<'a>(alloc: Global, paths: &[&'a str]) -> Result<Vec<&'a str>, ArgumentFault>
    ensures { IfOk result (λ paths. 0 < length paths.items) }
{
    if paths.is_empty() {
        return Err(ArgumentFault::Missing(NO_REEL));
    }
    match Vec::from_slice(alloc, paths) {
        Ok(paths) => Ok(paths),
        Err(_) => Err(ArgumentFault::OutOfMemory),
    }
}

fn catalogs_in<'a>(alloc: Global, matches: &ArgMatches<'a>) -> Result<Vec<&'a str>, ArgumentFault> {
    let Some(paths) = matches.get_strs("catalog") else {
        return Ok(Vec::new(alloc));
    };
    match Vec::from_slice(alloc, paths) {
        Ok(paths) => Ok(paths),
        Err(_) => Err(ArgumentFault::OutOfMemory),
    }
}

#[tactic(auto, unfolding(crate::specs::Rdump::IsOneGiven))]
fn length_in(
    text: Option<&str>,
    catalogs: &[&str],
    is_partial: bool,
) -> Result<Option<u64>, ArgumentFault>
    ensures number { IfOk result (λ length. IfSome length (λ n. n ≤ ARGUMENT_LIMIT)) }
    ensures one { IfOk result (λ length. IsOneGiven length catalogs.now is_partial) }
{
    match (text, catalogs) {
        (None, []) if !is_partial => Err(ArgumentFault::Missing(NO_LENGTH)),
        (None, _) => Ok(None),
        (Some(_), [_, ..]) => Err(ArgumentFault::Conflict(TWO_LENGTHS)),
        (Some(text), []) => match number_of(text) {
            Some(length) => Ok(Some(length)),
            None => Err(ArgumentFault::Value(BAD_LENGTH)),
        },
    }
}

pub(crate) fn level_in(text: Option<&str>) -> Result<Option<u8>, ArgumentFault>
    ensures { IfOk result (λ level. IfSome level (λ n. n ≤ 9)) }
{
    let Some(text) = text else {
        return Ok(None);
    };
    match level_of(text) {
        Some(level) => Ok(Some(level)),
        None => Err(ArgumentFault::Value(BAD_LEVEL)),
    }
}

pub(crate) fn date_in(text: Option<&str>) -> Result<Option<u64>, ArgumentFault>
    ensures { IfOk result (λ date. IfSome date (λ n. n ≤ ARGUMENT_LIMIT)) }
{
    let Some(text) = text else {
        return Ok(None);
    };
    match number_of(text) {
        Some(date) => Ok(Some(date)),
        None => Err(ArgumentFault::Value(BAD_DATE)),
    }
}

pub(crate) static CAT_ARGUMENTS: [ArgumentSpec; 7] = [
    ArgumentSpec {
        name: "path",
        value: "FILE|FOLDER",
        help: "A record file, or a folder of record files",
        form: Form::Many,
        missing: "",
    },
    ArgumentSpec {
        name: "catalog",
        value: "FILE",
        help: "A catalog; if several are given, only one may have lines of the dump",
        form: Form::Repeated,
        missing: "",
    },
    ArgumentSpec {
        name: "length",
        value: "BYTES",
        help: "The length of the payload, if there is no catalog",
        form: Form::Optional,
        missing: "",
    },
    ArgumentSpec {
        name: "partial",
        value: "",
        help: "Write zero bytes for each block that is missing, and end with status 3",
        form: Form::Flag,
        missing: "",
    },
    ArgumentSpec {
        name: "fs",
        value: "NAME",
        help: "The name of the dumped file system",
        form: Form::Optional,
        missing: "",
    },
    ArgumentSpec {
        name: "level",
        value: "LEVEL",
        help: "The level of the dump, 0 to 9",
        form: Form::Optional,
        missing: "",
    },
    ArgumentSpec {
        name: "date",
        value: "SECONDS",
        help: "The date of the dump in seconds since 1970",
        form: Form::Optional,
        missing: "",
    },
];
