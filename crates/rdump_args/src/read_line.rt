//! The arguments of `rdump read`.
ghost use Rattle.std.specs.Prelude.{IfOk};
ghost use Rattle.sockets.specs.Address.{IsAddress};
ghost use Rattle.rdump_args.specs.Rdump.{IsReadLine};

use crate::argument::{ArgumentSpec, Form, value_in};
use crate::drive::drive_in;
use crate::fault::ArgumentFault;
use crate::timeout::timeout_of;
use clap::ArgMatches;
use std::time::Duration;

/// The parsed arguments of `rdump read`.
#[derive(Clone, Copy, Debug)]
pub struct ReadLine<'a> {
    /// The address that the server listens at: a host and a port, or `unix:` and a path.
    pub to: &'a str,
    /// The device of the drive at the server: 1 to 255 bytes of one line.
    pub device: &'a str,
    /// How long to wait for the server, or None for no limit.
    pub timeout: Option<Duration>,
    /// The path of the file that the volume's blocks are written to.
    pub out: &'a str,
}

pub(crate) fn read_in<'a>(matches: &ArgMatches<'a>) -> Result<ReadLine<'a>, ArgumentFault>
    ensures { IfOk result (λ line. IsReadLine line × IsAddress line.to.now) }
{
    let (to, device) = drive_in(matches)?;
    let timeout = timeout_of(matches.get_str("timeout"))?;
    Ok(ReadLine {
        to,
        device,
        timeout,
        out: value_in(matches, "out"),
    })
}

pub(crate) static READ_ARGUMENTS: [ArgumentSpec; 4] = [
    ArgumentSpec::TO,
    ArgumentSpec::DEVICE,
    ArgumentSpec::TIMEOUT,
    ArgumentSpec {
        name: "out",
        value: "FILE",
        help: "What the blocks are written to",
        form: Form::Required,
        missing: "--out is required",
    },
];
