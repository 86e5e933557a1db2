//! Tests of requests and replies as they are appended, against texts written by hand.
ghost use Rattle.rmt_wire.specs.Lent.{plain_reply, plain_request};
ghost use Rattle.rmt_wire.specs.Reply.{ReplyHasSpelling};
ghost use Rattle.rmt_wire.specs.Request.{HasSpelling};

use rmt_wire::{Reply, Request, push_reply, push_request};
use std::alloc::AllocError;
use std::test::Fail;

/// Appends a request that has a spelling.
fn ask(out: &mut Vec<u8>, request: Request<'_>) -> Result<(), AllocError>
    requires { HasSpelling (plain_request request) }
{
    push_request(out, &request)
}

/// Appends a reply that has a spelling.
fn say(out: &mut Vec<u8>, reply: Reply<'_>) -> Result<(), AllocError>
    requires { ReplyHasSpelling (plain_reply reply) }
{
    push_reply(out, &reply)
}

/// Appends an open, an operation and two writes.
fn ask_first(out: &mut Vec<u8>) -> Result<(), AllocError> {
    let device = b"/dev/st0";
    ask(out, Request::Open { device, mode: 2 })?;
    ask(out, Request::Op { op: 5, count: 1 })?;
    ask(out, Request::Write { bytes: b"hello" })?;
    ask(out, Request::Write { bytes: b"" })
}

/// Appends requests of the other kinds, and one with the largest count.
fn ask_then(out: &mut Vec<u8>) -> Result<(), AllocError> {
    ask(out, Request::Read { count: 262144 })?;
    let count = 2147483647;
    ask(out, Request::Op { op: 0, count })?;
    ask(out, Request::Close)?;
    ask(out, Request::WriteDropped { count: 262145 })
}

#[test]
fn each_kind_of_request(rt: HostRuntime) -> Result<(), Fail> {
    let mut out = Vec::new(rt.alloc());
    ask_first(&mut out)?;
    ask_then(&mut out)?;
    let text =
        b"O/dev/st0\n2\nI5\n1\nW5\nhelloW0\nR262144\nI0\n2147483647\nC\nW262145\n".as_slice();
    assert!(rt; *out == *text);
    Ok(())
}

/// Appends a reply of each kind.
fn say_each(out: &mut Vec<u8>) -> Result<(), AllocError> {
    say(out, Reply::Done { number: 0 })?;
    say(out, Reply::Data { bytes: b"ab\n" })?;
    let text = b"Device busy";
    say(out, Reply::Error { number: 16, text })
}

#[test]
fn each_kind_of_reply(rt: HostRuntime) -> Result<(), Fail> {
    let mut out = Vec::new(rt.alloc());
    say_each(&mut out)?;
    let text = b"A0\nA3\nab\nE16\nDevice busy\n".as_slice();
    assert!(rt; *out == *text);
    Ok(())
}
