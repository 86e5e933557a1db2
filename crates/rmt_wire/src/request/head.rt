//! Reads the lines that a request begins with. Each function gets the bytes after those read
//! before, and returns None if a line is not complete.

ghost use Rattle.std.specs.Prelude.{◌≡◌, ◌+◌, ◌^◌, ◌<◌, length, IfOk, IfSome};
ghost use Rattle.rmt_wire.specs.RequestFront as spec;

use crate::fault::WireFault;
use crate::number::{Place, number_front};
use crate::request::line::line_front;

/// The lines of a request. `len` is how many bytes they have, and `device` how many the device's
/// name has.
#[derive(Clone, Copy)]
pub enum Head {
    Open {
        device: usize,
        mode: u32,
        len: usize,
    },
    Close {
        len: usize,
    },
    Write {
        count: u32,
        len: usize,
    },
    Read {
        count: u32,
        len: usize,
    },
    Op {
        op: u32,
        count: u32,
        len: usize,
    },
}

#[tactic(auto, unfolding(crate::specs::RequestFront::open_head))]
fn open_head(bytes: &[u8]) -> Result<Option<Head>, WireFault>
    ensures value { result ≡ spec.open_head bytes.now }
    ensures within { IfOk result (λ o. IfSome o (spec.FitsIn (length bytes.now + 1))) }
{
    let Some(device) = line_front(bytes)? else {
        return Ok(None);
    };
    mode_head(device, &bytes[device + 1..])
}

#[tactic(auto, unfolding(crate::specs::RequestFront::mode_head))]
fn mode_head(device: usize, line: &[u8]) -> Result<Option<Head>, WireFault>
    requires { device + length line.now + 2 < 2 ^ 64 }
    ensures value { result ≡ spec.mode_head device line.now }
    ensures within { IfOk result (λ o. IfSome o (spec.FitsIn (device + length line.now + 2))) }
{
    let Some((mode, _)) = number_front(line, Place::Mode)? else {
        return Ok(None);
    };
    let Some(end) = line_front(line)? else {
        return Ok(None);
    };
    let len = device + end + 3;
    Ok(Some(Head::Open { device, mode, len }))
}

#[tactic(auto, unfolding(crate::specs::RequestFront::close_head))]
fn close_head(bytes: &[u8]) -> Result<Option<Head>, WireFault>
    ensures value { result ≡ spec.close_head bytes.now }
    ensures within { IfOk result (λ o. IfSome o (spec.FitsIn (length bytes.now + 1))) }
{
    let Some(end) = line_front(bytes)? else {
        return Ok(None);
    };
    Ok(Some(Head::Close { len: end + 2 }))
}

#[tactic(auto, unfolding(crate::specs::RequestFront::write_head))]
fn write_head(bytes: &[u8]) -> Result<Option<Head>, WireFault>
    ensures value { result ≡ spec.write_head bytes.now }
    ensures within { IfOk result (λ o. IfSome o (spec.FitsIn (length bytes.now + 1))) }
{
    let Some((count, digits)) = number_front(bytes, Place::Line)? else {
        return Ok(None);
    };
    let len = digits + 2;
    Ok(Some(Head::Write { count, len }))
}

#[tactic(auto, unfolding(crate::specs::RequestFront::read_head))]
fn read_head(bytes: &[u8]) -> Result<Option<Head>, WireFault>
    ensures value { result ≡ spec.read_head bytes.now }
    ensures within { IfOk result (λ o. IfSome o (spec.FitsIn (length bytes.now + 1))) }
{
    let Some((count, digits)) = number_front(bytes, Place::Line)? else {
        return Ok(None);
    };
    let len = digits + 2;
    Ok(Some(Head::Read { count, len }))
}

#[tactic(auto, unfolding(crate::specs::RequestFront::op_head))]
fn op_head(bytes: &[u8]) -> Result<Option<Head>, WireFault>
    ensures value { result ≡ spec.op_head bytes.now }
    ensures within { IfOk result (λ o. IfSome o (spec.FitsIn (length bytes.now + 1))) }
{
    let Some((op, first)) = number_front(bytes, Place::Line)? else {
        return Ok(None);
    };
    count_head(op, first, &bytes[first + 1..])
}

/// The operation's number has `first` digits.
#[tactic(auto, unfolding(crate::specs::RequestFront::count_head))]
fn count_head(op: u32, first: usize, line: &[u8]) -> Result<Option<Head>, WireFault>
    requires { first + length line.now + 2 < 2 ^ 64 }
    ensures value { result ≡ spec.count_head (op, first) line.now }
    ensures within { IfOk result (λ o. IfSome o (spec.FitsIn (first + length line.now + 2))) }
{
    let Some((count, second)) = number_front(line, Place::Line)? else {
        return Ok(None);
    };
    let len = first + second + 3;
    Ok(Some(Head::Op { op, count, len }))
}

#[tactic(auto, unfolding(crate::specs::RequestFront::head_of, crate::specs::RequestFront::letter_head))]
pub fn head_of(bytes: &[u8]) -> Result<Option<Head>, WireFault>
    ensures value { result ≡ spec.head_of bytes.now }
    ensures within { IfOk result (λ o. IfSome o (spec.FitsIn (length bytes.now))) }
{
    match bytes {
        [] => Ok(None),
        [b'O', rest @ ..] => open_head(rest),
        [b'C', rest @ ..] => close_head(rest),
        [b'W', rest @ ..] => write_head(rest),
        [b'R', rest @ ..] => read_head(rest),
        [b'I', rest @ ..] => op_head(rest),
        _ => Err(WireFault::UnknownCommand),
    }
}
