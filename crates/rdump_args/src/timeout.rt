//! The limit of each wait for the server.
ghost use Rattle.std.specs.Prelude.{◌≡◌, None, IfOk, MatchOption};
ghost use Rattle.std.specs.Str.Parse.{digits_value};
ghost use Rattle.rdump_args.specs.Rdump.{IsLimit};

use crate::fault::ArgumentFault;
use rmt_wire::argument::number_of;
use std::time::Duration;

const BAD_TIMEOUT: &str =
    "invalid value for '--timeout <SECONDS>': a number is 0 to 9223372036854775807 in digits";

/// Returns the limit that a text states in seconds. None is no limit: there is no text, or the
/// number is 0.
pub(crate) fn timeout_of(text: Option<&str>) -> Result<Option<Duration>, ArgumentFault>
    ensures { IfOk result (λ limit. MatchOption text.entry (limit ≡ None) (λ given. IsLimit (digits_value 10 given.now) limit)) }
{
    let Some(text) = text else {
        return Ok(None);
    };
    match number_of(text) {
        Some(seconds) => Ok(limit_of(seconds)),
        None => Err(ArgumentFault::Value(BAD_TIMEOUT)),
    }
}

fn limit_of(seconds: u64) -> Option<Duration>
    ensures { IsLimit seconds result }
{
    if seconds == 0 {
        None
    } else {
        Some(Duration::from_secs(seconds))
    }
}
