//! How failures of a dump are answered.
ghost use Rattle.std.specs.Prelude.{◌≡◌, ◌≤◌, ◌<◌, ◌*◌, IfOk, IfSome, MatchOption};
ghost use Rattle.std.specs.Duration.{as_nanos};
ghost use Rattle.std.specs.Str.Parse.{digits_value};
ghost use Rattle.rdump_args.specs.declared.retry.TheConstants.{MOST_PAUSE, MOST_RETRIES, USUAL_PAUSE};

use crate::fault::ArgumentFault;
use rmt_wire::argument::number_of;
use std::time::Duration;

/// The most failures in a row that are answered by another attempt.
pub const MOST_RETRIES: u32 = 1_000_000;

/// The longest pause before an attempt, in seconds.
pub const MOST_PAUSE: u64 = 86_400;

/// The pause if none is given, in seconds.
const USUAL_PAUSE: u64 = 60;

const BAD_RETRY: &str = "invalid value for '--retry <TIMES>': it is 1 to 1000000, in digits";

const BAD_PAUSE: &str =
    "invalid value for '--pause <SECONDS>': a pause is 0 to 86400 seconds, in digits";

pub(crate) fn retry_of(text: Option<&str>) -> Result<Option<u32>, ArgumentFault>
    ensures { IfOk result (λ retry. IfSome retry (λ n. (0 < n) × (n ≤ MOST_RETRIES))) }
{
    let Some(text) = text else {
        return Ok(None);
    };
    match number_of(text) {
        Some(times) if 0 < times && times <= u64::from(MOST_RETRIES) => Ok(Some(times as u32)),
        _ => Err(ArgumentFault::Value(BAD_RETRY)),
    }
}

pub(crate) fn pause_of(text: Option<&str>) -> Result<Duration, ArgumentFault>
    ensures limit { IfOk result (λ pause. as_nanos pause ≤ MOST_PAUSE * 1_000_000_000) }
    ensures value { IfOk result (λ pause. MatchOption text.entry (as_nanos pause ≡ USUAL_PAUSE * 1_000_000_000)
        (λ given. as_nanos pause ≡ digits_value 10 given.now * 1_000_000_000)) }
{
    let Some(text) = text else {
        return Ok(Duration::from_secs(USUAL_PAUSE));
    };
    match number_of(text) {
        Some(seconds) if seconds <= MOST_PAUSE => Ok(Duration::from_secs(seconds)),
        _ => Err(ArgumentFault::Value(BAD_PAUSE)),
    }
}
