//! The arguments of `rdump dates`.
ghost use Rattle.std.specs.Prelude.{◌≡◌, ◌↔◌, ℕ, ◌≤◌, ◌+◌, ◌∷◌, [], IfOk, IfSome, IsSome, IsTrue};
ghost use Rattle.dumpdates.specs.Entry.{IsName};
ghost use Rattle.rdump_args.specs.Rdump.{IsDatesAsked, IsRdumpLine};

use crate::argument::{ArgumentSpec, Form, value_in};
use crate::fault::ArgumentFault;
use crate::rdump_line::RdumpLine;
use clap::ArgMatches;
use dumpdates::Entry;

const BAD_NAME: &str =
    "invalid value for '--name <NAME>': a name is 1 to 255 bytes of printable ASCII without a space";

const BAD_LEVEL: &str = "invalid value for '--level <LEVEL>': a level is one digit, 0 to 9";

const ONE_ALONE: &str = "--name and --level are given together or not at all";

pub(crate) fn dates_in<'a>(matches: &ArgMatches<'a>) -> Result<RdumpLine<'a>, ArgumentFault>
    ensures { IfOk result IsRdumpLine }
{
    match asked(matches.get_str("name"), matches.get_str("level")) {
        Ok(asked) => Ok(RdumpLine::Dates {
            file: value_in(matches, "file"),
            asked,
        }),
        Err(fault) => Err(fault),
    }
}

fn asked<'a>(
    name: Option<&'a str>,
    level: Option<&str>,
) -> Result<Option<(&'a str, u8)>, ArgumentFault>
    ensures { IfOk result IsDatesAsked }
{
    let (name, level) = match (name, level) {
        (None, None) => return Ok(None),
        (Some(name), Some(level)) => (name, level),
        _ => return Err(ArgumentFault::Missing(ONE_ALONE)),
    };
    match level_of(level) {
        None => Err(ArgumentFault::Value(BAD_LEVEL)),
        Some(level) if is_name(name) => Ok(Some((name, level))),
        Some(_) => Err(ArgumentFault::Value(BAD_NAME)),
    }
}

pub(crate) fn level_of(argument: &str) -> Option<u8>
    ensures value { IfSome result (λ n. (n ≤ 9) × (argument.now ≡ (48 + n) ∷ [])) }
    ensures given { (n : ℕ) → n ≤ 9 → argument.now ≡ (48 + n) ∷ [] → IsSome result }
{
    match argument.as_bytes() {
        [digit @ b'0'..=b'9'] => Some(*digit - b'0'),
        _ => None,
    }
}

fn is_name(name: &str) -> bool
    ensures { IsTrue result ↔ IsName name.now }
{
    Entry::new(name, 0, 0).is_some()
}

pub(crate) static DATES_ARGUMENTS: [ArgumentSpec; 3] = [
    ArgumentSpec {
        name: "file",
        value: "FILE",
        help: "The dumpdates file",
        form: Form::Required,
        missing: "--file is required",
    },
    ArgumentSpec {
        name: "name",
        value: "NAME",
        help: "Ask for the base date of a dump of this file system",
        form: Form::With("level"),
        missing: "",
    },
    ArgumentSpec {
        name: "level",
        value: "LEVEL",
        help: "The level of that dump, one digit",
        form: Form::With("name"),
        missing: "",
    },
];
