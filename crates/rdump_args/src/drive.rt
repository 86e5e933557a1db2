//! A drive at a server, given by the server's address and the drive's device name.
ghost use Rattle.std.specs.Prelude.{IfOk};
ghost use Rattle.dump_run.specs.Run.{IsDevice};
ghost use Rattle.sockets.specs.Address.{IsAddress};

use crate::argument::value_in;
use crate::fault::ArgumentFault;
use clap::ArgMatches;
use rmt_wire::argument::is_device;
use sockets::{is_address, path_of};

const BAD_ADDRESS: &str =
    "invalid value for '--to <ADDRESS>': an address is a host and a port, as in localhost:4711 or [::1]:4711, or unix: and an absolute path, as in unix:/run/rmtd/socket";

const LONG_PATH: &str =
    "invalid value for '--to <ADDRESS>': the path of a Unix socket has at most 107 bytes";

const BAD_DEVICE: &str =
    "invalid value for '--device <DEVICE>': a device is 1 to 255 bytes of one line";

pub(crate) fn drive_in<'a>(matches: &ArgMatches<'a>) -> Result<(&'a str, &'a str), ArgumentFault>
    ensures { IfOk result (λ drive. IsAddress drive.0.now × IsDevice drive.1.now) }
{
    drive_of(value_in(matches, "to"), value_in(matches, "device"))
}

pub(crate) fn drive_of<'a>(
    to: &'a str,
    device: &'a str,
) -> Result<(&'a str, &'a str), ArgumentFault>
    ensures { IfOk result (λ drive. IsAddress drive.0.now × IsDevice drive.1.now) }
{
    let to = address_of(to)?;
    if is_device(device.as_bytes()) {
        Ok((to, device))
    } else {
        Err(ArgumentFault::Value(BAD_DEVICE))
    }
}

pub(crate) fn address_in<'a>(matches: &ArgMatches<'a>) -> Result<&'a str, ArgumentFault>
    ensures { IfOk result (λ address. IsAddress address.now) }
{
    address_of(value_in(matches, "to"))
}

fn address_of<'a>(text: &'a str) -> Result<&'a str, ArgumentFault>
    ensures { IfOk result (λ address. IsAddress address.now) }
{
    if is_address(text) {
        Ok(text)
    } else if path_of(text).is_some() {
        Err(ArgumentFault::Value(LONG_PATH))
    } else {
        Err(ArgumentFault::Value(BAD_ADDRESS))
    }
}
