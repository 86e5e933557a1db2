//! The text of a date, as ctime(3) prints it.

ghost use Rattle.std.specs.Prelude.{◌≡◌, ◌↔◌, ◌+◌, ◌<◌, ◌≤◌, [], ◌∷◌, ◌++◌, length, decimal, IsSome, IfSome};
ghost use Rattle.dumpdates.specs.Clock.{plain_moment};
ghost use Rattle.dumpdates.specs.Entry.{last_second};
ghost use Rattle.dumpdates.specs.Moment.{IsMoment};
ghost use Rattle.dumpdates.specs.Text as spec;

use crate::LAST_SECOND;
use crate::moment::{DAY, Moment, moment_of};
use crate::names::{month_name, weekday_name};
use arrayvec::ArrayString;
use itoa::Buffer;

/// The length of the text of a date in bytes.
pub const DATE_TEXT_BYTES: usize = 24;

/// Returns a date as ctime(3) prints it, in UTC, without the line feed: `Thu Jan  1 00:00:00 1970`.
/// The date is in seconds since 1970 began. Returns None if it is above `LAST_SECOND`. Allocates
/// nothing.
pub fn date_text(date: u64) -> Option<ArrayString<DATE_TEXT_BYTES>>
    ensures given { IsSome result ↔ (date ≤ last_second) }
    ensures text { IfSome result (λ text. text.bytes ≡ spec.ctime_text date) }
{
    if date > LAST_SECOND {
        return None;
    }
    Some(ctime(date))
}

#[tactic(auto, using(crate::proofs::Writing::year_digits, std::proofs::Common::append_assoc), unfolding(crate::specs::Text::ctime_text))]
pub(crate) fn ctime(date: u64) -> ArrayString<DATE_TEXT_BYTES>
    requires { date ≤ LAST_SECOND }
    ensures { result.bytes ≡ spec.ctime_text date }
{
    let moment = moment_of(date);
    let mut text = day_words(date, moment);
    push_time(&mut text, moment);
    push_number(&mut text, moment.year);
    text
}

#[tactic(auto, using(std::proofs::Common::append_assoc))]
fn day_words(date: u64, moment: Moment) -> ArrayString<DATE_TEXT_BYTES>
    requires { IsMoment (plain_moment moment) }
    ensures text { result.bytes ≡ spec.day_words date (plain_moment moment) }
    ensures len { length result.bytes ≡ 11 }
{
    let mut text = ArrayString::new();
    text.push_str(weekday_name(date / DAY));
    text.push_str(" ");
    text.push_str(month_name(moment.month));
    text.push_str(" ");
    push_day(&mut text, moment.day);
    text.push_str(" ");
    text
}

#[tactic(auto, using(std::proofs::Common::append_assoc))]
fn push_time(text: &mut ArrayString<DATE_TEXT_BYTES>, moment: Moment)
    requires moment { IsMoment (plain_moment moment) }
    requires room { length text.old.bytes + 9 ≤ DATE_TEXT_BYTES }
    ensures text { text.new.bytes ≡ text.old.bytes ++ (spec.time_text (plain_moment moment) ++ spec.space ∷ []) }
    ensures len { length text.new.bytes ≡ length text.old.bytes + 9 }
{
    push_two(text, moment.hour);
    text.push_str(":");
    push_two(text, moment.minute);
    text.push_str(":");
    push_two(text, moment.second);
    text.push_str(" ");
}

/// Appends a day of a month in two bytes, with a space in place of a leading 0.
#[tactic(auto, using(std::proofs::lemmas::Fmt::decimal_digit))]
fn push_day(text: &mut ArrayString<DATE_TEXT_BYTES>, day: u8)
    requires below { day < 100 }
    requires room { length text.old.bytes + 2 ≤ DATE_TEXT_BYTES }
    ensures text { text.new.bytes ≡ text.old.bytes ++ spec.day_text day }
    ensures len { length text.new.bytes ≡ length text.old.bytes + 2 }
{
    if day < 10 {
        text.push_str(" ");
        push_number(text, u16::from(day));
    } else {
        push_two(text, day);
    }
}

/// Appends a number below 100 as two digits.
#[tactic(auto, using(std::proofs::lemmas::Fmt::decimal_digit))]
pub(crate) fn push_two(text: &mut ArrayString<DATE_TEXT_BYTES>, number: u8)
    requires below { number < 100 }
    requires room { length text.old.bytes + 2 ≤ DATE_TEXT_BYTES }
    ensures text { text.new.bytes ≡ text.old.bytes ++ spec.two_digits number }
    ensures len { length text.new.bytes ≡ length text.old.bytes + 2 }
{
    push_number(text, u16::from(number / 10));
    push_number(text, u16::from(number % 10));
}

pub(crate) fn push_number(text: &mut ArrayString<DATE_TEXT_BYTES>, number: u16)
    requires { length text.old.bytes + length (decimal number) ≤ DATE_TEXT_BYTES }
    ensures text { text.new.bytes ≡ text.old.bytes ++ decimal number }
    ensures len { length text.new.bytes ≡ length text.old.bytes + length (decimal number) }
{
    let mut digits = Buffer::new();
    text.push_str(digits.format(number));
}
