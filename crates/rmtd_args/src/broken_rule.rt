//! Faults in arguments that clap accepts.

ghost use Rattle.rmtd_args.specs.Rmtd.{IsShown};

use clap::error::ErrorKind;
use std::fmt;

/// The rule that the arguments of `rmtd` break. Its `Display` is the text for the user.
#[derive(Clone, Copy)]
pub(crate) enum BrokenRule<'a> {
    /// Neither or both of `--stdio` and `--listen` are given.
    StdioOrListen,
    Capacity,
    Connections,
    Idle,
    /// A limit for idle connections is given, and `--listen` is not.
    IdleWithStdio,
    /// This argument names a drive, and no bin is given.
    NoBin(&'a str),
    /// This argument names one drive too many.
    TooMany(&'a str),
    /// This argument names no drive.
    Drive(&'a str),
    /// This argument names a drive that an earlier one names.
    Again(&'a str),
}

impl BrokenRule<'_> {
    pub(crate) fn kind(self) -> ErrorKind
        ensures { ¬ (IsShown result) }
    {
        match self {
            BrokenRule::StdioOrListen | BrokenRule::IdleWithStdio | BrokenRule::Again(_) =>
                ErrorKind::ArgumentConflict,
            BrokenRule::Capacity | BrokenRule::Connections | BrokenRule::Idle =>
                ErrorKind::ValueValidation,
            BrokenRule::Drive(_) => ErrorKind::ValueValidation,
            BrokenRule::NoBin(_) => ErrorKind::MissingRequiredArgument,
            BrokenRule::TooMany(_) => ErrorKind::TooManyValues,
        }
    }

    /// Returns the text before the argument at fault, that argument, and the text after it.
    fn parts(&self) -> (&str, &str, &str) {
        match self {
            BrokenRule::StdioOrListen => (
                "one of --stdio and --listen <ADDRESS> is given, and not both",
                "",
                "",
            ),
            BrokenRule::Capacity => (
                "invalid value for '--capacity <BYTES>': a number is 0 to 9223372036854775807 in digits",
                "",
                "",
            ),
            BrokenRule::Connections => (
                "invalid value for '--connections <N>': a number is 0 to 9223372036854775807 in digits",
                "",
                "",
            ),
            BrokenRule::Idle => (
                "invalid value for '--idle <SECONDS>': a number is 0 to 9223372036854775807 in digits",
                "",
                "",
            ),
            BrokenRule::IdleWithStdio => ("--idle is given with --listen only", "", ""),
            BrokenRule::NoBin(argument) => (
                "the drive '",
                argument,
                "' is given, and --bin <DIR> is not",
            ),
            BrokenRule::TooMany(argument) => (
                "unexpected drive '",
                argument,
                "': there are at most 64",
            ),
            BrokenRule::Drive(argument) => (
                "invalid drive '",
                argument,
                "': it is DEVICE=DIR, with a device of 1 to 255 bytes of one line, and a folder",
            ),
            BrokenRule::Again(argument) => (
                "invalid drive '",
                argument,
                "': its device is named before",
            ),
        }
    }
}

impl fmt::Display for BrokenRule<'_> {
    fn fmt<W: fmt::Write>(&self, f: &mut fmt::Formatter<W>) -> fmt::Result {
        let (before, argument, after) = self.parts();
        f.write_str(before)?;
        f.write_str(argument)?;
        f.write_str(after)
    }
}
