//! The arguments of `rdump fetch`.
ghost use Rattle.std.specs.Prelude.{IfOk};
ghost use Rattle.sockets.specs.Address.{IsAddress};
ghost use Rattle.rdump_args.specs.Rdump.{IsFetchLine};

use crate::argument::{ArgumentSpec, Form, value_in};
use crate::drive::drive_in;
use crate::fault::ArgumentFault;
use crate::timeout::timeout_of;
use clap::ArgMatches;
use std::time::Duration;

/// The parsed arguments of `rdump fetch`.
#[derive(Clone, Copy, Debug)]
pub struct FetchLine<'a> {
    /// The address that the server listens at: a host and a port, or `unix:` and a path.
    pub to: &'a str,
    /// The device of the drive at the server: 1 to 255 bytes of one line.
    pub device: &'a str,
    /// How long to wait for the server, or None for no limit.
    pub timeout: Option<Duration>,
    /// The path of the folder that gets the record files.
    pub into: &'a str,
    /// The path of the catalog to compare each reel with, or None to compare none.
    pub catalog: Option<&'a str>,
}

pub(crate) fn fetch_in<'a>(matches: &ArgMatches<'a>) -> Result<FetchLine<'a>, ArgumentFault>
    ensures { IfOk result (λ line. IsFetchLine line × IsAddress line.to.now) }
{
    let (to, device) = drive_in(matches)?;
    let timeout = timeout_of(matches.get_str("timeout"))?;
    Ok(FetchLine {
        to,
        device,
        timeout,
        into: value_in(matches, "into"),
        catalog: matches.get_str("catalog"),
    })
}

pub(crate) static FETCH_ARGUMENTS: [ArgumentSpec; 5] = [
    ArgumentSpec::TO,
    ArgumentSpec::DEVICE,
    ArgumentSpec::TIMEOUT,
    ArgumentSpec {
        name: "into",
        value: "FOLDER",
        help: "The folder that gets a record file for each reel",
        form: Form::Required,
        missing: "--into is required",
    },
    ArgumentSpec {
        name: "catalog",
        value: "FILE",
        help: "Compare each reel with this catalog",
        form: Form::Optional,
        missing: "",
    },
];
