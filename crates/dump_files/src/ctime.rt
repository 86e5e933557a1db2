//! The clock, and a date as text.
ghost use Rattle.std.specs.Prelude.{◌≡◌, IfSome, string_bytes};
ghost use Rattle.dumpdates.specs.Text.{ctime_text};

use std::alloc::Global;
use std::time::{Clock, SystemTime, UNIX_EPOCH};

/// Formats a date, in seconds since 1970, as ctime(3) does, in UTC and without the line feed:
/// `Tue Feb 29 00:00:00 2000`.
///
/// Returns none if the date is above `LAST_SECOND` of `dumpdates`, the last second of the year
/// 9999, or if an allocation fails.
pub fn date_text(alloc: Global, date: u64) -> Option<String>
    // Tests show when the call returns none: `a_date_as_text` in `client_tests`.
    ensures { IfSome result (λ text. string_bytes text ≡ ctime_text date) }
{
    let text = dumpdates::date_text(date)?;
    String::from_str(alloc, text.as_str()).ok()
}

/// Returns the time of the clock, in seconds since 1970, UTC. Returns none if the clock is before
/// 1970 or cannot be read.
pub fn seconds_now<R: Clock>(rt: &R) -> Option<u64> {
    let now = SystemTime::now(rt).ok()?;
    Some(now.duration_since(UNIX_EPOCH).ok()?.as_secs())
}
