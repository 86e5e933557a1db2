//! Reads the values of a line's words.

ghost use Rattle.std.specs.Prelude.{ℕ, ◌^◌, ◌<◌, ◌≤◌, MatchOption, IfSome};
ghost use Rattle.dumpdates.specs.FoundLine.{SpellsMoment, plain_words, plain_fields};
ghost use Rattle.dumpdates.specs.Line.{PlainFields, SpellsDigits, SpellsTime, SpellsWords};

use crate::as_name;
use crate::moment::Moment;
use crate::names::{is_weekday, month_named};
use crate::words::LineWords;

/// The values of a line's words. The date need not be valid.
#[derive(Clone, Copy)]
pub(crate) struct LineFields<'a> {
    pub(crate) name: &'a str,
    pub(crate) level: u8,
    pub(crate) moment: Moment,
}

/// Returns the values of the words, or None if one of them has the wrong shape.
#[tactic(auto, using(crate::proofs::Naming::weekday_is, crate::proofs::Naming::is_weekday))]
pub(crate) fn fields_of(words: LineWords<'_>) -> Option<LineFields<'_>>
    ensures { MatchOption result ((f : PlainFields) → ¬ SpellsWords (plain_words words.entry) f)
        (λ f. SpellsWords (plain_words words.entry) (plain_fields f)) }
{
    let name = as_name(words.name)?;
    if !is_weekday(words.weekday) {
        return None;
    }
    let level = number(words.level, 1, 1)?;
    let moment = moment_in(words)?;
    Some(LineFields {
        name,
        level: level as u8,
        moment,
    })
}

/// Returns the moment that the words spell, or None if one of them has the wrong shape. The moment
/// need not be valid.
fn moment_in(words: LineWords<'_>) -> Option<Moment>
    ensures { MatchOption result ((f : PlainFields) → ¬ SpellsWords (plain_words words.entry) f)
        (λ m. SpellsMoment (plain_words words.entry) m) }
{
    let month = month_named(words.month)?;
    let day = number(words.day, 1, 2)?;
    let year = number(words.year, 4, 4)?;
    let time = time_of(words.time)?;
    Some(Moment {
        year,
        month,
        day: day as u8,
        hour: time.hour,
        minute: time.minute,
        second: time.second,
    })
}

/// A time of day, which need not be valid.
#[derive(Clone, Copy)]
struct Time {
    hour: u8,
    minute: u8,
    second: u8,
}

/// Returns the time that a word of the shape hh:mm:ss spells, or None for any other word.
fn time_of(word: &[u8]) -> Option<Time>
    ensures { MatchOption result ((h m s : ℕ) → ¬ SpellsTime word.now h m s) (λ t. SpellsTime word.now t.hour t.minute t.second) }
{
    if word.len() != 8 || word[2] != b':' || word[5] != b':' {
        return None;
    }
    let hour = number(&word[..2], 2, 2)?;
    let minute = number(&word[3..5], 2, 2)?;
    let second = number(&word[6..], 2, 2)?;
    Some(Time {
        hour: hour as u8,
        minute: minute as u8,
        second: second as u8,
    })
}

/// Returns the number that a word of `least` to `most` digits spells, or None for any other word.
/// `most` is at most 4.
fn number(text: &[u8], least: usize, most: usize) -> Option<u16>
    requires { most ≤ 4 }
    ensures value { MatchOption result ((n : ℕ) → ¬ SpellsDigits least most text.now n) (λ n. SpellsDigits least most text.now n) }
    ensures small { IfSome result (λ n. n < 10 ^ most) }
{
    if text.len() < least || text.len() > most {
        return None;
    }
    let mut value = 0;
    for byte in text {
        if !byte.is_ascii_digit() {
            return None;
        }
        value = value * 10 + u16::from(*byte - b'0');
    }
    Some(value)
}
