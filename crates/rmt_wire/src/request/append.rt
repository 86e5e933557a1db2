//! Appends a request to a vector.

ghost use Rattle.std.specs.Prelude.{◌≡◌, ℕ, ◌+◌, ◌<◌, ◌≤◌, List, ◌++◌, length, OnOk, OnErr};
ghost use Rattle.std.specs.Vec.{vec_capacity, vec_len};
ghost use Rattle.rmt_wire.specs.Lent.{plain_request};
ghost use Rattle.rmt_wire.specs.Request.{PlainRequest, HasSpelling, IsTextOf, request_text};

use crate::append::push_text;
use crate::limits::{LINE_LIMIT, NUMBER_LIMIT, RECORD_LIMIT};
use crate::request::Request;
use crate::short_text::{ShortText, numbered, push_number};
use std::alloc::AllocError;

/// Appends the bytes that are sent for a request. Numbers have no leading zeros, a mode is its
/// number alone, and a close has no text. A dropped write is its line alone.
///
/// The device must be one line of at most `LINE_LIMIT` bytes, and each number at most
/// `NUMBER_LIMIT`. A write has at most `RECORD_LIMIT` bytes, and a dropped write has more.
///
/// Fails only if `out` lacks capacity and an allocation fails. Then `out` and its capacity are
/// unchanged.
#[tactic(auto, using(crate::proofs::Spelling::request_text_spells))]
pub fn push_request(out: &mut Vec<u8>, request: &Request<'_>) -> Result<(), AllocError>
    requires { HasSpelling (plain_request request.now) }
    ensures appended { OnOk result (out.new.items ≡ out.old.items ++ request_text (plain_request request.now)) }
    ensures unchanged { OnErr result ((out.new.items ≡ out.old.items) × (vec_capacity out.new ≡ vec_capacity out.old)) }
    ensures full { OnErr result (vec_capacity out.old < vec_len out.old + length (request_text (plain_request request.now))) }
    ensures spelled { IsTextOf (request_text (plain_request request.now)) (plain_request request.now) }
{
    let (lines, data) = parts(request);
    push_text(out, lines.as_slice(), data)
}

/// Appends the line of a write of `count` bytes, at most `RECORD_LIMIT`. Reserves room for these
/// bytes, which the caller appends next. Fails as `push_request` does.
pub fn push_write_line(out: &mut Vec<u8>, count: usize) -> Result<(), AllocError>
    requires { count ≤ RECORD_LIMIT }
    ensures begun { OnOk result ((bytes : List ℕ) → length bytes ≡ count →
        out.new.items ++ bytes ≡ out.old.items ++ request_text (PlainRequest.Write bytes)) }
    ensures room { OnOk result (vec_len out.new + count ≤ vec_capacity out.new) }
    ensures unchanged { OnErr result ((out.new.items ≡ out.old.items) × (vec_capacity out.new ≡ vec_capacity out.old)) }
    ensures full { OnErr result ((bytes : List ℕ) → length bytes ≡ count →
        vec_capacity out.old < vec_len out.old + length (request_text (PlainRequest.Write bytes))) }
    ensures spelled { (bytes : List ℕ) → length bytes ≡ count →
        IsTextOf (request_text (PlainRequest.Write bytes)) (PlainRequest.Write bytes) }
{
    let line = numbered(b'W', count);
    out.reserve(line.as_slice().len() + count)?;
    out.extend_from_slice(line.as_slice())
}

fn parts<'a>(request: &Request<'a>) -> (ShortText, &'a [u8])
    requires { HasSpelling (plain_request request.now) }
    ensures text { result.0 ++ result.1.now ≡ request_text (plain_request request.now) }
    ensures short { length result.0 + length result.1.now ≤ 2147483659 }
{
    match *request {
        Request::Open { device, mode } => (open_lines(device, mode), b""),
        Request::Close => (ShortText::new(), b"C\n"),
        Request::Write { bytes } => (numbered(b'W', bytes.len()), bytes),
        Request::WriteDropped { count } => (numbered(b'W', count as usize), b""),
        Request::Read { count } => (numbered(b'R', count as usize), b""),
        Request::Op { op, count } => (op_lines(op, count), b""),
    }
}

fn open_lines(device: &[u8], mode: u32) -> ShortText
    requires device { length device.now ≤ LINE_LIMIT }
    requires mode { mode ≤ NUMBER_LIMIT }
    ensures text { result ≡ request_text (PlainRequest.Open device.now mode) }
    ensures short { length result ≤ LINE_LIMIT + 13 }
{
    let mut lines = ShortText::new();
    lines.push_byte(b'O');
    lines.push_slice(device);
    lines.push_byte(b'\n');
    push_number(&mut lines, mode);
    lines
}

fn op_lines(op: u32, count: u32) -> ShortText
    requires op { op ≤ NUMBER_LIMIT }
    requires count { count ≤ NUMBER_LIMIT }
    ensures text { result ≡ request_text (PlainRequest.Op op count) }
    ensures short { length result ≤ 23 }
{
    let mut lines = numbered(b'I', op as usize);
    push_number(&mut lines, count);
    lines
}
