//! Converts between a date and time in UTC and seconds since 1970 began.

ghost use Rattle.std.specs.Prelude.{◌≡◌, ◌↔◌, ◌≤◌, ◌/◌, IsSome, IfSome};
ghost use Rattle.dumpdates.specs.Moment as spec;
ghost use Rattle.dumpdates.specs.Moment.{IsMoment};
ghost use Rattle.dumpdates.specs.Clock.{plain_moment};

use crate::LAST_SECOND;
use jiff::civil::{Date, date};

pub(crate) const DAY: u64 = 86_400;

/// A date and a time of day in UTC, which need not be valid.
#[derive(Clone, Copy)]
pub(crate) struct Moment {
    pub(crate) year: u16,
    pub(crate) month: u8,
    pub(crate) day: u8,
    pub(crate) hour: u8,
    pub(crate) minute: u8,
    pub(crate) second: u8,
}

/// Day 0 is 1 January 1970.
fn day_numbered(number: u64) -> (u16, u8, u8)
    requires { number ≤ 2932896 }
    ensures year { result.0 ≡ (spec.day_numbered number).year }
    ensures month { result.1 ≡ (spec.day_numbered number).month }
    ensures day { result.2 ≡ (spec.day_numbered number).day }
{
    let first = date(1970, 1, 1).to_plain();
    let day = first.checked_add(number as i64).unwrap();
    (day.year as u16, day.month, day.day)
}

pub(crate) fn moment_of(seconds: u64) -> Moment
    requires { seconds ≤ LAST_SECOND }
    ensures value { plain_moment result ≡ spec.moment_of seconds }
    ensures moment { IsMoment (plain_moment result) }
{
    let (year, month, day) = day_numbered(seconds / DAY);
    let second = seconds % DAY;
    Moment {
        year,
        month,
        day,
        hour: (second / 3600) as u8,
        minute: (second % 3600 / 60) as u8,
        second: (second % 60) as u8,
    }
}

/// Returns the seconds since 1970 began. Returns None if the calendar has no such day from 1970 to
/// 9999, or the time is not valid.
pub(crate) fn seconds_of(moment: Moment) -> Option<u64>
    ensures given { IsSome result ↔ IsMoment (plain_moment moment) }
    ensures value { IfSome result (λ n. n ≡ spec.seconds_at (plain_moment moment)) }
{
    let Moment {
        year,
        month,
        day,
        hour,
        minute,
        second,
    } = moment;
    if year < 1970 || year > 9999 || month > 12 || day > 31 {
        return None;
    }
    if hour > 23 || minute > 59 || second > 59 {
        return None;
    }
    let Ok(date) = Date::new(year as i16, month as i8, day as i8) else {
        return None;
    };
    let days = date.to_plain().to_unix_epoch_day() as u64;
    Some(DAY * days + 3600 * u64::from(hour) + 60 * u64::from(minute) + u64::from(second))
}
