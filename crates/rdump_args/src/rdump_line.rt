//! The arguments of `rdump`.

ghost use Rattle.std.specs.Prelude.{◌≡◌, IfOk};
ghost use Rattle.clap.specs.Values.{kind_of};
ghost use Rattle.clap.specs.declared.error.kind.ErrorKind.TheVariants.{ValueValidation};
ghost use Rattle.rdump_args.specs.Rdump.{IsRdumpLine};

use crate::argument::{ArgumentSpec, args_of, check_given, push_command};
use crate::cat_line::{CAT_ARGUMENTS, CatLine, cat_in};
use crate::dates_line::{DATES_ARGUMENTS, dates_in};
use crate::dump_line::{DUMP_ARGUMENTS, DumpLine, dump_in};
use crate::fault::ArgumentFault;
use crate::fetch_line::{FETCH_ARGUMENTS, FetchLine, fetch_in};
use crate::list_line::{LIST_ARGUMENTS, ListLine, list_in};
use crate::mt_line::{MT_ARGUMENTS, MtLine, mt_in};
use crate::read_line::{READ_ARGUMENTS, ReadLine, read_in};
use clap::error::ErrorKind;
use clap::{ArgMatches, Command, Error};
use std::alloc::{AllocError, Global};
use std::convert::AsStr;

/// The parsed arguments of `rdump`.
#[derive(Debug, Drop)]
pub enum RdumpLine<'a> {
    /// Dump a payload.
    Dump(DumpLine<'a>),
    /// Read a volume back.
    Read(ReadLine<'a>),
    /// Copy the reels of a stack into record files.
    Fetch(FetchLine<'a>),
    /// Write the payload of a dump from its reels.
    Cat(CatLine<'a>),
    /// List what reels contain.
    List(ListLine<'a>),
    /// Do one operation at a drive.
    Mt(MtLine<'a>),
    /// Print a dumpdates file, or a base date from it.
    Dates {
        /// The path of the file.
        file: &'a str,
        /// The name and the level whose base date to print, or None to print the file. The name is
        /// valid for an entry: 1 to 255 bytes of printable ASCII without a space. The level is 0 to
        /// 9.
        asked: Option<(&'a str, u8)>,
    },
}

/// Parses the arguments of `rdump`, which begin with the name of the program. They are those of one
/// of its commands:
///
/// - `dump --to ADDRESS --device D [--timeout SECONDS] --fs NAME --level L --payload FILE --block
///   BYTES --dumpdates FILE [--date SECONDS] [--checkpoint FILE] [--catalog FILE] [--update]
///   [--protect] [--retry TIMES [--pause SECONDS]]`; with `--payload -` also `[--spool DIR]` and
///   `[--allow-empty]`, and not both `--spool` and `--checkpoint`
/// - `read --to ADDRESS --device D [--timeout SECONDS] --out FILE`
/// - `fetch --to ADDRESS --device D [--timeout SECONDS] --into FOLDER [--catalog FILE]`
/// - `cat [--catalog FILE]... [--length BYTES] [--partial] [--fs NAME] [--level LEVEL] [--date
///   SECONDS] FILE|FOLDER...`; `--catalog`, `--length` or `--partial` is given, and not both
///   `--catalog` and `--length`
/// - `ls FILE|FOLDER... [--dumpdates FILE [--blocks N]] [--catalog FILE [--fs NAME] [--level LEVEL]
///   [--date SECONDS]]`
/// - `ls --to ADDRESS --device D [--timeout SECONDS] [--dumpdates FILE [--blocks N]] [--catalog
///   FILE [--fs NAME] [--level LEVEL] [--date SECONDS]]`
/// - `mt --to ADDRESS --device D [--timeout SECONDS] OP COUNT`
/// - `dates --file FILE [--name NAME --level LEVEL]`
///
/// The values are within the limits that the fields of the result state. Each address is valid, as
/// `sockets::is_address` decides.
///
/// Fails if the arguments are bad, if they ask for help or the version, or if an allocation fails.
/// The error's kind says which, and its text is for the user.
pub fn rdump_args<'a, S: AsStr>(alloc: Global, arguments: &'a [S]) -> Result<RdumpLine<'a>, Error>
    ensures { IfOk result IsRdumpLine }
{
    match rdump_command(alloc) {
        Ok(mut rdump) => line_of(alloc, &mut rdump, arguments),
        Err(refused) => Err(refused.into()),
    }
}

fn line_of<'a, S: AsStr>(
    alloc: Global,
    rdump: &mut Command<'a>,
    arguments: &'a [S],
) -> Result<RdumpLine<'a>, Error>
    ensures { IfOk result IsRdumpLine }
{
    match rdump.try_get_matches_from_mut(arguments) {
        Ok(matches) => matched(alloc, &matches),
        Err(error) => Err(error),
    }
}

fn matched<'a>(alloc: Global, matches: &ArgMatches<'a>) -> Result<RdumpLine<'a>, Error>
    ensures { IfOk result IsRdumpLine }
{
    match line_in(alloc, matches) {
        Ok(line) => Ok(line),
        Err(fault) => Err(error_of(alloc, name_in(matches), fault.kind(), fault.text())?),
    }
}

fn name_in<'a>(matches: &ArgMatches<'a>) -> &'a str {
    match matches.subcommand() {
        Some((name, _)) => name,
        None => "",
    }
}

/// Returns the error for an argument of `rdump dump` whose value exceeds a limit. The error shows
/// this text and the usage of the command.
///
/// The error's kind is `ValueValidation`. Fails if an allocation fails.
pub fn dump_error(alloc: Global, text: &str) -> Result<Error, AllocError>
    ensures { IfOk result (λ error. kind_of error ≡ ValueValidation) }
{
    error_of(alloc, "dump", ErrorKind::ValueValidation, text)
}

fn error_of(alloc: Global, name: &str, kind: ErrorKind, text: &str) -> Result<Error, AllocError>
    ensures { IfOk result (λ error. kind_of error ≡ kind) }
{
    let args = args_of(alloc, arguments_of(name))?;
    let mut command = Command::new(alloc, whole_name(name)).args(args)?;
    command.error(kind, text)
}

fn whole_name(name: &str) -> &'static str {
    match name {
        "dump" => "rdump dump",
        "read" => "rdump read",
        "fetch" => "rdump fetch",
        "cat" => "rdump cat",
        "ls" => "rdump ls",
        "mt" => "rdump mt",
        "dates" => "rdump dates",
        _ => "rdump",
    }
}

fn line_in<'a>(alloc: Global, matches: &ArgMatches<'a>) -> Result<RdumpLine<'a>, ArgumentFault>
    ensures { IfOk result IsRdumpLine }
{
    match matches.subcommand() {
        Some((name, given)) => match check_given(given, arguments_of(name)) {
            Ok(()) => named_in(alloc, name, given),
            Err(fault) => Err(fault),
        },
        None => Err(ArgumentFault::NoCommand),
    }
}

fn named_in<'a>(
    alloc: Global,
    name: &str,
    matches: &ArgMatches<'a>,
) -> Result<RdumpLine<'a>, ArgumentFault>
    ensures { IfOk result IsRdumpLine }
{
    match name {
        "dump" => dump_in(matches),
        "read" => read_in(matches).map(RdumpLine::Read),
        "fetch" => fetch_in(matches).map(RdumpLine::Fetch),
        "cat" => cat_in(alloc, matches).map(RdumpLine::Cat),
        "ls" => list_in(alloc, matches).map(RdumpLine::List),
        "mt" => mt_in(matches).map(RdumpLine::Mt),
        "dates" => dates_in(matches),
        _ => Err(ArgumentFault::NoCommand),
    }
}

fn rdump_command<'a>(alloc: Global) -> Result<Command<'a>, AllocError> {
    match commands(alloc) {
        Ok(commands) => named(alloc).subcommands(commands),
        Err(refused) => Err(refused),
    }
}

/// Builds the command `rdump` without its arguments.
fn named<'a>(alloc: Global) -> Command<'a> {
    Command::new(alloc, "rdump")
        .about("Dump client for the remote magtape protocol of rmt(8)")
        .version("0.1.0")
        .subcommand_required(true)
        .arg_required_else_help(true)
}

fn commands<'a>(alloc: Global) -> Result<Vec<Command<'a>>, AllocError> {
    let mut commands = Vec::new(alloc);
    for said in &COMMANDS {
        push_command(alloc, *said, arguments_of(said.0), &mut commands)?;
    }
    Ok(commands)
}

/// The names of the commands, and the text of each in the help.
static COMMANDS: [(&str, &str); 7] = [
    (
        "dump",
        "Dump a payload to a remote tape, and ask after each failure whether to retry",
    ),
    (
        "read",
        "Read a volume of a remote tape: print its label, and write its blocks to a file",
    ),
    (
        "fetch",
        "Copy the reels of a remote tape into record files, and take each reel to the bin",
    ),
    (
        "cat",
        "Check the reels of a dump, and write its payload to standard output",
    ),
    (
        "ls",
        "List what reels hold: record files and folders of them, or the reel of a remote tape",
    ),
    (
        "mt",
        "Do one operation of mt(1) at a remote tape, and print its answer",
    ),
    (
        "dates",
        "Print a dumpdates file anew, or the base date of a dump in seconds since 1970",
    ),
];

fn arguments_of(name: &str) -> &'static [ArgumentSpec] {
    match name {
        "dump" => &DUMP_ARGUMENTS,
        "read" => &READ_ARGUMENTS,
        "fetch" => &FETCH_ARGUMENTS,
        "cat" => &CAT_ARGUMENTS,
        "ls" => &LIST_ARGUMENTS,
        "mt" => &MT_ARGUMENTS,
        "dates" => &DATES_ARGUMENTS,
        _ => &[],
    }
}
