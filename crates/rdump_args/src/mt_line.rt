//! The arguments of `rdump mt`.
ghost use Rattle.std.specs.Prelude.{◌≤◌, IfOk, IfSome};
ghost use Rattle.sockets.specs.Address.{IsAddress};
ghost use Rattle.rdump_args.specs.Rdump.{IsMtLine};

use crate::argument::{ArgumentSpec, Form, value_in};
use crate::drive::drive_in;
use crate::fault::ArgumentFault;
use crate::timeout::timeout_of;
use clap::ArgMatches;
use rmt_wire::NUMBER_LIMIT;
use rmt_wire::argument::number_of;
use rmt_wire::mtio::{MTBSF, MTBSR, MTFSF, MTFSR, MTNOP, MTOFFL, MTREW, MTWEOF};
use std::time::Duration;

/// The parsed arguments of `rdump mt`.
#[derive(Clone, Copy, Debug)]
pub struct MtLine<'a> {
    /// The address that the server listens at: a host and a port, or `unix:` and a path.
    pub to: &'a str,
    /// The device of the drive at the server: 1 to 255 bytes of one line.
    pub device: &'a str,
    /// How long to wait for the server, or None for no limit.
    pub timeout: Option<Duration>,
    /// The number of the operation, one of `rmt_wire::mtio`.
    pub op: u32,
    /// The count of the operation, up to `rmt_wire::NUMBER_LIMIT`.
    pub count: u32,
}

const BAD_OP: &str =
    "invalid value for '<OP>': it is one of weof, fsf, bsf, fsr, bsr, rewind, offline, nop";

const BAD_COUNT: &str = "invalid value for '<COUNT>': a count is 0 to 2147483647 in digits";

pub(crate) fn mt_in<'a>(matches: &ArgMatches<'a>) -> Result<MtLine<'a>, ArgumentFault>
    ensures { IfOk result (λ line. IsMtLine line × IsAddress line.to.now) }
{
    let (to, device) = drive_in(matches)?;
    let timeout = timeout_of(matches.get_str("timeout"))?;
    match operation_of(value_in(matches, "op"), value_in(matches, "count")) {
        Ok((op, count)) => Ok(MtLine {
            to,
            device,
            timeout,
            op,
            count,
        }),
        Err(fault) => Err(fault),
    }
}

fn operation_of(op: &str, count: &str) -> Result<(u32, u32), ArgumentFault>
    ensures { IfOk result (λ found. (found.0 ≤ MTNOP) × (found.1 ≤ NUMBER_LIMIT)) }
{
    let Some(op) = op_of(op) else {
        return Err(ArgumentFault::Value(BAD_OP));
    };
    match count_of(count) {
        Some(count) => Ok((op, count)),
        None => Err(ArgumentFault::Value(BAD_COUNT)),
    }
}

/// Returns the number of an operation (mtio), given its name in mt(1).
fn op_of(argument: &str) -> Option<u32>
    ensures { IfSome result (λ op. op ≤ MTNOP) }
{
    match argument {
        "weof" => Some(MTWEOF),
        "fsf" => Some(MTFSF),
        "bsf" => Some(MTBSF),
        "fsr" => Some(MTFSR),
        "bsr" => Some(MTBSR),
        "rewind" => Some(MTREW),
        "offline" => Some(MTOFFL),
        "nop" => Some(MTNOP),
        _ => None,
    }
}

fn count_of(text: &str) -> Option<u32>
    ensures { IfSome result (λ n. n ≤ NUMBER_LIMIT) }
{
    let number = number_of(text)?;
    if number > u64::from(NUMBER_LIMIT) {
        return None;
    }
    Some(number as u32)
}

pub(crate) static MT_ARGUMENTS: [ArgumentSpec; 5] = [
    ArgumentSpec::TO,
    ArgumentSpec::DEVICE,
    ArgumentSpec::TIMEOUT,
    ArgumentSpec {
        name: "op",
        value: "OP",
        help: "weof, fsf, bsf, fsr, bsr, rewind, offline or nop",
        form: Form::Place,
        missing: "<OP> is required",
    },
    ArgumentSpec {
        name: "count",
        value: "COUNT",
        help: "How many times, 0 to 2147483647",
        form: Form::Place,
        missing: "<COUNT> is required",
    },
];
