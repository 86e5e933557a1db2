//! Reads the reply that bytes begin with, and its whole length.

ghost use Rattle.std.specs.Prelude.{◌≡◌, ◌+◌, ◌<◌, ◌≤◌, ◌^◌, ◌++◌, length, take, drop, IfOk, IfSome};
ghost use Rattle.rmt_wire.specs.Lent.{plain_wanted, lent_reply};
ghost use Rattle.rmt_wire.specs.Parsed.{number_front};
ghost use Rattle.rmt_wire.specs.declared.number.Place.TheVariants as places;
ghost use Rattle.rmt_wire.specs.Reply as kinds;
ghost use Rattle.rmt_wire.specs.ReplyFront as spec;

use crate::fault::WireFault;
use crate::find::find_byte;
use crate::limits::LINE_LIMIT;
use crate::number::{Place, number_front};
use crate::reply::Reply;
use crate::reply::wanted::Wanted;

pub fn text_len(bytes: &[u8]) -> usize
    ensures value { result ≡ spec.text_len bytes.now }
    ensures within { result ≤ length bytes.now }
{
    find_byte(bytes, b'\n').unwrap_or(bytes.len())
}

fn error_at(number: u32, len: usize, text: &[u8]) -> Option<(Reply<'_>, usize)>
    requires { len + length text.now < 2 ^ 64 }
    ensures value { lent_reply (Ok result) ≡ spec.error_at number len text.now }
    ensures within { IfSome result (λ r. r.1 ≤ len + length text.now) }
{
    let end = text_len(text);
    if end == text.len() {
        return None;
    }
    let text = &text[..end.min(LINE_LIMIT)];
    Some((Reply::Error { number, text }, len + end + 1))
}

fn data_at(count: u32, len: usize, bytes: &[u8]) -> Option<(Reply<'_>, usize)>
    requires { len + length bytes.now < 2 ^ 64 }
    ensures value { lent_reply (Ok result) ≡ spec.data_at count len bytes.now }
    ensures within { IfSome result (λ r. r.1 ≤ len + length bytes.now) }
{
    let size = count as usize;
    if bytes.len() < size {
        return None;
    }
    let bytes = &bytes[..size];
    Some((Reply::Data { bytes }, len + size))
}

#[tactic(auto, unfolding(crate::specs::ReplyFront::done_front))]
fn number_done(bytes: &[u8]) -> Result<Option<(Reply<'_>, usize)>, WireFault>
    ensures value { lent_reply result ≡ spec.done_front kinds.Wanted.Number bytes.now }
    ensures within { IfOk result (λ o. IfSome o (λ r. r.1 ≤ length bytes.now + 1)) }
{
    let Some((number, digits)) = number_front(bytes, Place::Line)? else {
        return Ok(None);
    };
    Ok(Some((Reply::Done { number }, digits + 2)))
}

#[tactic(auto, unfolding(crate::specs::ReplyFront::done_front))]
fn data_done(bytes: &[u8], most: u32) -> Result<Option<(Reply<'_>, usize)>, WireFault>
    ensures value { lent_reply result ≡ spec.done_front (kinds.Wanted.DataUpTo most) bytes.now }
    ensures within { IfOk result (λ o. IfSome o (λ r. r.1 ≤ length bytes.now + 1)) }
{
    let Some((count, digits)) = number_front(bytes, Place::Data(most))? else {
        return Ok(None);
    };
    Ok(data_at(count, digits + 2, &bytes[digits + 1..]))
}

fn done_front(bytes: &[u8], wanted: Wanted) -> Result<Option<(Reply<'_>, usize)>, WireFault>
    ensures value { lent_reply result ≡ spec.done_front (plain_wanted wanted) bytes.now }
    ensures within { IfOk result (λ o. IfSome o (λ r. r.1 ≤ length bytes.now + 1)) }
{
    match wanted {
        Wanted::Number => number_done(bytes),
        Wanted::Data(most) => data_done(bytes, most),
    }
}

#[tactic(auto, unfolding(crate::specs::ReplyFront::error_front))]
fn error_front(bytes: &[u8]) -> Result<Option<(Reply<'_>, usize)>, WireFault>
    ensures value { lent_reply result ≡ spec.error_front bytes.now }
    ensures within { IfOk result (λ o. IfSome o (λ r. r.1 ≤ length bytes.now + 1)) }
{
    let Some((number, digits)) = number_front(bytes, Place::Line)? else {
        return Ok(None);
    };
    Ok(error_at(number, digits + 2, &bytes[digits + 1..]))
}

#[tactic(auto, unfolding(crate::specs::ReplyFront::reply_front))]
pub fn reply_front(bytes: &[u8], wanted: Wanted) -> Result<Option<(Reply<'_>, usize)>, WireFault>
    ensures value { lent_reply result ≡ spec.reply_front (plain_wanted wanted) bytes.now }
    ensures within { IfOk result (λ o. IfSome o (λ r. r.1 ≤ length bytes.now)) }
{
    match bytes {
        [] => Ok(None),
        [b'A', rest @ ..] => done_front(rest, wanted),
        [b'E', rest @ ..] => error_front(rest),
        _ => Err(WireFault::NotAReply),
    }
}

/// Like `surplus`, for the bytes after an `E`.
fn surplus_behind(bytes: &[u8]) -> (usize, usize)
    ensures value { spec.kept_behind (number_front places.Line bytes.now) bytes.now
        ≡ take result.0 bytes.now ++ drop (result.0 + result.1) bytes.now }
    ensures within { result.0 + result.1 ≤ length bytes.now }
{
    let Ok(Some((_, digits))) = number_front(bytes, Place::Line) else {
        return (0, 0);
    };
    let len = text_len(&bytes[digits + 1..]);
    let kept = len.min(LINE_LIMIT);
    (digits + 1 + kept, len - kept)
}

/// Returns the index and the number of the bytes of an error's text that are not kept.
#[tactic(auto, unfolding(crate::specs::ReplyFront::kept_of))]
pub fn surplus(bytes: &[u8]) -> (usize, usize)
    ensures value { spec.kept_of bytes.now ≡ take result.0 bytes.now ++ drop (result.0 + result.1) bytes.now }
    ensures within { result.0 + result.1 ≤ length bytes.now }
{
    let [letter, rest @ ..] = bytes else {
        return (0, 0);
    };
    if *letter != b'E' {
        return (0, 0);
    }
    let (at, discardable) = surplus_behind(rest);
    (at + 1, discardable)
}
