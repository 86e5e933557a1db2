//! The arguments of `rmtd`. The variable `rmtd` is clap's description of the command.

ghost use Rattle.std.specs.Prelude.{◌≡◌, map, codes, false, [], IfOk, IfErr, IsErrOf, MatchOption, MatchResult, option_map};
ghost use Rattle.clap.specs.Words.{App, HasKind, app_of, first_of, found_of, kind_of, new_app, rows_of, rule_of, with_rule};
ghost use Rattle.rmtd_args.specs.Drive.{plain_drive, split_of};
ghost use Rattle.rmtd_args.specs.Rmtd.{app, app_with_limits, app_with_ways, arguments_in, arguments_rule, faults_in, flag_rule, has_stdio, matches_in, option_rule, with_version, AreBadArguments, AskToBeShown, IsLineIn, IsLineOf, IsShown, KeepsRules, ReadsCapacity, IsConnectionLimit, IsIdleLimit, IsNumberIfGiven};

use crate::broken_rule::BrokenRule;
use crate::drive_argument::{DriveArgument, check_drives, drives_of};
use clap::error::ErrorKind;
use clap::{Arg, ArgAction, ArgMatches, Command, Error};
use rmt_wire::argument::number_of;
use std::alloc::{AllocError, Global};
use std::time::Duration;

/// The capacity of a reel if no argument gives it, in bytes.
const USUAL_CAPACITY: u64 = 1_048_576;

/// The parsed arguments of `rmtd`: whether to serve its standard input or to listen at an address,
/// and how.
#[derive(Debug, Drop)]
pub struct ServerLine<'a> {
    /// Whether to serve standard input and standard output.
    pub stdio: bool,
    /// The address to listen at: a host and a port, or `unix:` and a path. It is not checked here.
    pub listen: Option<&'a str>,
    /// The capacity of each reel in bytes, measured as the size of its file. It applies to the reel
    /// in memory and to each in a folder.
    pub capacity: u64,
    /// The number of connections after which the server exits, if there is a limit.
    pub connections: Option<u64>,
    /// How long one read or one write of a connection may make no progress before the server ends
    /// the connection, if there is a limit.
    pub idle: Option<Duration>,
    /// The folder of the bin. It is given if there is a drive.
    pub bin: Option<&'a str>,
    /// The drives whose stacks are folders, in the order of their arguments: at most 64, each with
    /// its own device. If there are none, the server has one drive in memory.
    pub drives: Vec<DriveArgument<'a>>,
}

/// Why the arguments could not be parsed.
#[derive(Clone, Copy, Debug, PartialEq, Eq)]
pub enum LineFault {
    /// The arguments are wrong, or ask for help or the version.
    BadWords,
    /// An allocation failed.
    OutOfMemory,
}

/// Parses the arguments of `rmtd`, which begin with the name of the program. They are `--stdio` or
/// `--listen ADDRESS`, with `[--capacity BYTES] [--connections N] [--idle SECONDS] [--bin DIR]
/// [DEVICE=DIR]...`.
///
/// Exactly one of `--stdio` and `--listen` is given. A number is 0 to 9223372036854775807, in
/// digits. The default of `--capacity` is 1048576 bytes. `--idle` is given with `--listen` only,
/// and 0 is no limit.
///
/// An argument `DEVICE=DIR` is a drive. The device ends before the first `=` and is 1 to 255 bytes
/// of one line. The rest is a folder, not empty. There are at most 64 drives, each with its own
/// device, and with a drive `--bin` is given.
///
/// Fails with `BadWords` if the arguments are wrong or ask for help or the version, and with
/// `OutOfMemory` if an allocation fails.
pub fn server_words<'a>(
    alloc: Global,
    arguments: &'a [&'a str],
) -> Result<ServerLine<'a>, LineFault>
    ensures line { IfOk result (IsLineOf (map (λ s. s.now) arguments.entry.now)) }
    ensures refused { IsErrOf result LineFault.BadWords → AreBadArguments (map (λ s. s.now) arguments.entry.now) }
{
    match server_line(alloc, arguments) {
        Ok(line) => Ok(line),
        Err(error) => Err(fault_from(&error)),
    }
}

/// Parses the arguments as `server_words` does, but returns clap's error if the parsing fails. The
/// error's text is for the user: it says what is wrong with the arguments. It is the help or the
/// version only if the arguments ask for that.
///
/// The error's kind is `OutOfMemory` if an allocation failed. If clap refuses the arguments, the
/// kind is one with which clap refuses them.
pub fn server_line<'a>(alloc: Global, arguments: &'a [&'a str]) -> Result<ServerLine<'a>, Error>
    ensures line { IfOk result (IsLineOf (map (λ s. s.now) arguments.entry.now)) }
    // No clause says which text an error has.
    ensures refused { IfErr result (λ e. ¬ (kind_of e ≡ ErrorKind.OutOfMemory) → AreBadArguments (map (λ s. s.now) arguments.entry.now)) }
    ensures shown { IfErr result (λ e. IsShown (kind_of e) → AskToBeShown (map (λ s. s.now) arguments.entry.now)) }
    ensures kinds { IfErr result (λ e. ¬ (faults_in (map (λ s. s.now) arguments.entry.now) ≡ [])
        → HasKind (faults_in (map (λ s. s.now) arguments.entry.now)) e) }
{
    match command(alloc) {
        Ok(mut rmtd) => line_with(alloc, &mut rmtd, arguments),
        Err(refused) => Err(refused.into()),
    }
}

fn line_with<'a>(
    alloc: Global,
    rmtd: &mut Command<'a>,
    arguments: &'a [&'a str],
) -> Result<ServerLine<'a>, Error>
    requires { app_of rmtd.old ≡ app }
    ensures line { IfOk result (IsLineOf (map (λ s. s.now) arguments.entry.now)) }
    ensures refused { IfErr result (λ e. ¬ (kind_of e ≡ ErrorKind.OutOfMemory) → AreBadArguments (map (λ s. s.now) arguments.entry.now)) }
    ensures shown { IfErr result (λ e. IsShown (kind_of e) → AskToBeShown (map (λ s. s.now) arguments.entry.now)) }
    ensures kinds { IfErr result (λ e. ¬ (faults_in (map (λ s. s.now) arguments.entry.now) ≡ [])
        → HasKind (faults_in (map (λ s. s.now) arguments.entry.now)) e) }
{
    let matches = matched(rmtd, arguments)?;
    line_or_refusal(alloc, rmtd, &matches)
}

fn line_or_refusal<'a>(
    alloc: Global,
    rmtd: &mut Command<'a>,
    matches: &ArgMatches<'a>,
) -> Result<ServerLine<'a>, Error>
    ensures line { IfOk result (IsLineIn (rows_of (found_of matches.now))) }
    ensures refused { IfErr result (λ e. ¬ (kind_of e ≡ ErrorKind.OutOfMemory) → ¬ (KeepsRules (rows_of (found_of matches.now)))) }
    ensures plain { IfErr result (λ e. ¬ (IsShown (kind_of e))) }
{
    match line_from_matches(alloc, matches)? {
        Ok(line) => Ok(line),
        Err(wrong) => Err(refusal(alloc, rmtd, wrong)?),
    }
}

fn matched<'a>(rmtd: &mut Command<'a>, arguments: &'a [&'a str]) -> Result<ArgMatches<'a>, Error>
    requires { app_of rmtd.old ≡ app }
    ensures rows { IfOk result (λ m. rows_of (found_of m) ≡ matches_in (map (λ s. s.now) arguments.entry.now)) }
    ensures taken { IfOk result (λ _. faults_in (map (λ s. s.now) arguments.entry.now) ≡ []) }
    ensures refused { IfErr result (λ e. ¬ (kind_of e ≡ ErrorKind.OutOfMemory) → ¬ (faults_in (map (λ s. s.now) arguments.entry.now) ≡ [])) }
    ensures shown { IfErr result (λ e. IsShown (kind_of e) → AskToBeShown (map (λ s. s.now) arguments.entry.now)) }
    ensures kinds { IfErr result (HasKind (faults_in (map (λ s. s.now) arguments.entry.now))) }
{
    rmtd.try_get_matches_from_mut(arguments)
}

/// Returns the error for arguments that clap accepts, but that break a rule.
fn refusal(
    alloc: Global,
    rmtd: &mut Command<'_>,
    wrong: BrokenRule<'_>,
) -> Result<Error, AllocError>
    ensures { IfOk result (λ e. ¬ (IsShown (kind_of e))) }
{
    let text = format!(in alloc; "{wrong}")?;
    rmtd.error(wrong.kind(), text.as_str())
}

/// Converts clap's error for a caller that needs no text.
fn fault_from(error: &Error) -> LineFault
    ensures { result ≡ LineFault.BadWords → ¬ (kind_of error.now ≡ ErrorKind.OutOfMemory) }
{
    match error.kind() {
        ErrorKind::OutOfMemory => LineFault::OutOfMemory,
        _ => LineFault::BadWords,
    }
}

/// Returns the line, or the rule that the matches break. Fails if an allocation fails.
fn line_from_matches<'a>(
    alloc: Global,
    matches: &ArgMatches<'a>,
) -> Result<Result<ServerLine<'a>, BrokenRule<'a>>, AllocError>
    ensures { IfOk result (λ read. MatchResult read (IsLineIn (rows_of (found_of matches.now)))
        (λ _. ¬ (KeepsRules (rows_of (found_of matches.now))))) }
{
    let given = drive_arguments(alloc, matches)?;
    let drives = drives_of(alloc, given.as_slice())?;
    Ok(checked_line(matches, given.as_slice(), drives))
}

fn checked_line<'a>(
    matches: &ArgMatches<'a>,
    given: &[&'a str],
    drives: Vec<DriveArgument<'a>>,
) -> Result<ServerLine<'a>, BrokenRule<'a>>
    requires given { map (λ s. s.now) given.now ≡ arguments_in (rows_of (found_of matches.now)) }
    requires drives { map plain_drive drives.items ≡ map split_of (map (λ s. s.now) given.now) }
    ensures { MatchResult result (IsLineIn (rows_of (found_of matches.now))) (λ _. ¬ (KeepsRules (rows_of (found_of matches.now)))) }
{
    let stdio = stdio_of(matches);
    let listen = text_of(matches, "listen");
    if stdio == listen.is_some() {
        return Err(BrokenRule::StdioOrListen);
    }
    let Some(capacity) = capacity_of(text_of(matches, "capacity")) else {
        return Err(BrokenRule::Capacity);
    };
    let Ok(connections) = connections_of(text_of(matches, "connections")) else {
        return Err(BrokenRule::Connections);
    };
    let seconds = text_of(matches, "idle");
    let Ok(idle) = idle_of(seconds) else {
        return Err(BrokenRule::Idle);
    };
    if stdio && seconds.is_some() {
        return Err(BrokenRule::IdleWithStdio);
    }
    let bin = text_of(matches, "bin");
    if let Err(wrong) = check_drives(given, bin) {
        return Err(wrong);
    }
    Ok(ServerLine {
        stdio,
        listen,
        capacity,
        connections,
        idle,
        bin,
        drives,
    })
}

fn stdio_of(matches: &ArgMatches<'_>) -> bool
    ensures { result ≡ has_stdio (rows_of (found_of matches.now)) }
{
    match matches.get_str("stdio") {
        Some(text) => text == "true",
        None => false,
    }
}

/// Returns the value of an option, if it is given.
fn text_of<'a>(matches: &ArgMatches<'a>, id: &str) -> Option<&'a str>
    ensures { option_map (λ s. s.now) result ≡ first_of id.now (rows_of (found_of matches.now)) }
{
    matches.get_str(id)
}

/// Returns the arguments that are not options, in order.
fn drive_arguments<'a>(alloc: Global, matches: &ArgMatches<'a>) -> Result<Vec<&'a str>, AllocError>
    ensures { IfOk result (λ v. map (λ s. s.now) v.items ≡ arguments_in (rows_of (found_of matches.now))) }
{
    match matches.get_strs("drive") {
        Some(given) => Vec::from_slice(alloc, given),
        None => Ok(Vec::new(alloc)),
    }
}

/// Returns the default without a text, and None if the text is not a number.
fn capacity_of(text: Option<&str>) -> Option<u64>
    ensures { MatchOption result (¬ (IsNumberIfGiven (option_map (λ s. s.now) text.entry)))
        (ReadsCapacity (option_map (λ s. s.now) text.entry)) }
{
    match text {
        Some(text) => number_of(text),
        None => Some(USUAL_CAPACITY),
    }
}

fn connections_of(text: Option<&str>) -> Result<Option<u64>, BrokenRule<'static>>
    ensures { MatchResult result (IsConnectionLimit (option_map (λ s. s.now) text.entry))
        (λ _. ¬ (IsNumberIfGiven (option_map (λ s. s.now) text.entry))) }
{
    let Some(text) = text else {
        return Ok(None);
    };
    match number_of(text) {
        Some(number) => Ok(Some(number)),
        None => Err(BrokenRule::Connections),
    }
}

fn idle_of(text: Option<&str>) -> Result<Option<Duration>, BrokenRule<'static>>
    ensures { MatchResult result (IsIdleLimit (option_map (λ s. s.now) text.entry))
        (λ _. ¬ (IsNumberIfGiven (option_map (λ s. s.now) text.entry))) }
{
    let Some(text) = text else {
        return Ok(None);
    };
    match number_of(text) {
        Some(0) => Ok(None),
        Some(seconds) => Ok(Some(Duration::from_secs(seconds))),
        None => Err(BrokenRule::Idle),
    }
}

/// Builds the command `rmtd` with all of its arguments.
fn command<'a>(alloc: Global) -> Result<Command<'a>, AllocError>
    ensures { IfOk result (λ c. app_of c ≡ app) }
{
    let help = "The folder of the reels that are taken away";
    match with_option(alloc, with_limits(alloc), "bin", "DIR", help) {
        Ok(command) => command.arg(drives(alloc)),
        Err(refused) => Err(refused),
    }
}

fn with_limits<'a>(alloc: Global) -> Result<Command<'a>, AllocError>
    ensures { IfOk result (λ c. app_of c ≡ app_with_limits) }
{
    let capacity = "What a reel holds [default: 1048576]";
    let connections = "End after so many connections";
    let idle = "End a connection that makes no progress for so long [default: no limit]";
    let sized = with_option(alloc, with_ways(alloc), "capacity", "BYTES", capacity);
    let counted = with_option(alloc, sized, "connections", "N", connections);
    with_option(alloc, counted, "idle", "SECONDS", idle)
}

fn with_ways<'a>(alloc: Global) -> Result<Command<'a>, AllocError>
    ensures { IfOk result (λ c. app_of c ≡ app_with_ways) }
{
    let stdio = flag(alloc, "stdio", "Serve standard input and standard output");
    let help = "Listen at this host and port, or at unix:PATH";
    with_option(alloc, named(alloc).arg(stdio), "listen", "ADDRESS", help)
}

/// Adds the option `--NAME VALUE` to a command.
fn with_option<'a>(
    alloc: Global,
    command: Result<Command<'a>, AllocError>,
    name: &'a str,
    value: &'a str,
    help: &'a str,
) -> Result<Command<'a>, AllocError>
    ensures { (a : App) → IfOk command.entry (λ c. app_of c ≡ a)
        → IfOk result (λ c. app_of c ≡ with_rule a (option_rule name.entry.now)) }
{
    match command {
        Ok(command) => command.arg(valued(alloc, name, value, help)),
        Err(refused) => Err(refused),
    }
}

/// Builds the command `rmtd` without its arguments.
fn named<'a>(alloc: Global) -> Command<'a>
    ensures { app_of result ≡ with_version (new_app (codes "rmtd")) }
{
    Command::new(alloc, "rmtd")
        .about("Tape server for the remote magtape protocol of rmt(8)")
        .version("0.1.0")
}

/// Builds the option `--NAME`.
fn flag<'a>(alloc: Global, name: &'a str, help: &'a str) -> Arg<'a>
    ensures rule { rule_of result ≡ flag_rule name.entry.now }
    ensures local { result.global ≡ false }
{
    Arg::new(alloc, name)
        .long(name)
        .action(ArgAction::SetTrue)
        .help(help)
}

/// Builds the option `--NAME VALUE`.
fn valued<'a>(alloc: Global, name: &'a str, value: &'a str, help: &'a str) -> Arg<'a>
    ensures rule { rule_of result ≡ option_rule name.entry.now }
    ensures local { result.global ≡ false }
{
    Arg::new(alloc, name)
        .long(name)
        .value_name(value)
        .action(ArgAction::Set)
        .help(help)
}

/// Builds the arguments that are not options; there may be any number.
fn drives<'a>(alloc: Global) -> Arg<'a>
    ensures rule { rule_of result ≡ arguments_rule (codes "drive") }
    ensures local { result.global ≡ false }
{
    Arg::new(alloc, "drive")
        .value_name("DEVICE=DIR")
        .action(ArgAction::Append)
        .help("A drive and the folder of its reels [default: /dev/st0 in memory]")
}
