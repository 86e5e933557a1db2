//! The text of a date in UTC, as numbers.

ghost use Rattle.std.specs.Prelude.{◌≡◌, ◌↔◌, ◌+◌, ◌≤◌, ◌∷◌, ◌++◌, length, IsSome, IfSome};
ghost use Rattle.dumpdates.specs.Clock.{plain_moment};
ghost use Rattle.dumpdates.specs.Entry.{last_second};
ghost use Rattle.dumpdates.specs.Moment.{IsMoment};
ghost use Rattle.dumpdates.specs.Text as spec;

use crate::ctime::{push_number, push_two};
use crate::moment::{Moment, moment_of};
use crate::{DATE_TEXT_BYTES, LAST_SECOND};
use arrayvec::ArrayString;

/// Returns a date in UTC as year, month, day and time: `1970-01-01 00:00:00`. The date is in
/// seconds since 1970 began. Returns None if it is above `LAST_SECOND`. Allocates nothing.
pub fn utc_text(date: u64) -> Option<ArrayString<DATE_TEXT_BYTES>>
    ensures given { IsSome result ↔ (date ≤ last_second) }
    ensures text { IfSome result (λ text. text.bytes ≡ spec.utc_text date) }
{
    if date > LAST_SECOND {
        return None;
    }
    Some(utc(date))
}

#[tactic(auto, using(std::proofs::Common::append_assoc), unfolding(crate::specs::Text::utc_text))]
fn utc(date: u64) -> ArrayString<DATE_TEXT_BYTES>
    requires { date ≤ LAST_SECOND }
    ensures { result.bytes ≡ spec.utc_text date }
{
    let moment = moment_of(date);
    let mut text = utc_day(moment);
    text.push_str(" ");
    push_clock(&mut text, moment);
    text
}

#[tactic(auto, using(crate::proofs::Writing::year_digits, std::proofs::Common::append_assoc))]
fn utc_day(moment: Moment) -> ArrayString<DATE_TEXT_BYTES>
    requires { IsMoment (plain_moment moment) }
    ensures text { result.bytes ≡ spec.utc_day (plain_moment moment) }
    ensures len { length result.bytes ≤ 10 }
{
    let mut text = ArrayString::new();
    push_number(&mut text, moment.year);
    text.push_str("-");
    push_two(&mut text, moment.month);
    text.push_str("-");
    push_two(&mut text, moment.day);
    text
}

#[tactic(auto, using(std::proofs::Common::append_assoc))]
fn push_clock(text: &mut ArrayString<DATE_TEXT_BYTES>, moment: Moment)
    requires moment { IsMoment (plain_moment moment) }
    requires room { length text.old.bytes + 8 ≤ DATE_TEXT_BYTES }
    ensures { text.new.bytes ≡ text.old.bytes ++ spec.time_text (plain_moment moment) }
{
    push_two(text, moment.hour);
    text.push_str(":");
    push_two(text, moment.minute);
    text.push_str(":");
    push_two(text, moment.second);
}
