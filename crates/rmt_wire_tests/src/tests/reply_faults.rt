//! Tests of bytes that rule out every reply, written by hand. The reader is cleared before each of
//! them.

use super::listener::{Listener, Next};
use rmt_wire::{Reply, Wanted, WireFault};
use std::test::Fail;

/// The kind of reply that is waited for, if any, and the bytes that come then. Then the reply that
/// they begin with, if any, and their fault.
type Faulty = (
    Option<Wanted>,
    &'static [u8],
    Option<Reply<'static>>,
    WireFault,
);

static FAULTY: [Faulty; 26] = [
    // replies to a rewind
    (NUMBER, b"A00000000001\n", None, WireFault::BadNumber),
    (NUMBER, b"A\n", None, WireFault::BadNumber),
    (NUMBER, b"B1\n", None, WireFault::NotAReply),
    // data of three bytes
    (Some(Wanted::Data(3)), b"A4\n", None, WireFault::TooMuchData),
    // texts that are not the beginning of a reply
    (NUMBER, b"X\n", None, WireFault::NotAReply),
    (NUMBER, b"F5\nMedium error\n", None, WireFault::NotAReply),
    (LARGEST, b"\n", None, WireFault::NotAReply),
    (NUMBER, b"A-1\n", None, WireFault::BadNumber),
    (NUMBER, b"A5\r\n", None, WireFault::BadNumber),
    (NUMBER, b"A2147483648\n", None, WireFault::BadNumber),
    (LARGEST, b"E\nDevice busy\n", None, WireFault::BadNumber),
    (LARGEST, b"E16 Device busy\n", None, WireFault::BadNumber),
    (LARGEST, b"E99999999999\n\n", None, WireFault::BadNumber),
    (LARGEST, b"A262145\n", None, WireFault::TooMuchData),
    (LARGEST, b"A2147483648\n", None, WireFault::TooMuchData),
    (LARGEST, b"A00000262145\n", None, WireFault::TooMuchData),
    (LARGEST, b"A00000262144\n", None, WireFault::BadNumber),
    // bytes while no reply is waited for
    (None, b"A", None, WireFault::TooMuchData),
    (None, b"E", None, WireFault::TooMuchData),
    (None, b"\n", None, WireFault::TooMuchData),
    (None, b"\0", None, WireFault::TooMuchData),
    // bytes after a reply
    (
        NUMBER,
        b"A1\nA",
        Some(Reply::Done { number: 1 }),
        WireFault::TooMuchData,
    ),
    (
        Some(Wanted::Data(3)),
        b"A3\nabcd",
        Some(Reply::Data { bytes: b"abc" }),
        WireFault::TooMuchData,
    ),
    (
        NUMBER,
        b"A0\nA0\n",
        Some(Reply::Done { number: 0 }),
        WireFault::TooMuchData,
    ),
    (
        NUMBER,
        b"E5\nBusy\n\n",
        Some(Reply::Error {
            number: 5,
            text: b"Busy",
        }),
        WireFault::TooMuchData,
    ),
    (
        Some(Wanted::Data(9)),
        b"A2\nabc",
        Some(Reply::Data { bytes: b"ab" }),
        WireFault::TooMuchData,
    ),
];

const NUMBER: Option<Wanted> = Some(Wanted::Number);

const LARGEST: Option<Wanted> = Some(Wanted::Data(262144));

/// Clears the reader, which then waits for `wanted`, if it is not None. Returns whether it had
/// nothing unread and returned no reply.
fn starts(reader: &mut Listener, wanted: Option<Wanted>) -> bool {
    reader.clear();
    let is_empty = reader.holds(0) && reader.next(None) == Next::None(None);
    match wanted {
        Some(wanted) => is_empty && reader.wait(wanted),
        None => is_empty,
    }
}

/// Whether the reader returns this fault, also after more bytes are pushed.
fn stays(reader: &mut Listener, fault: WireFault) -> bool {
    let is_at = reader.next(None) == Next::None(Some(fault));
    reader.push(b"A0\n");
    is_at && reader.next(None) == Next::None(Some(fault))
}

/// Whether the reader returns the reply, if there is one, and then the fault.
fn is_shown(reader: &mut Listener, row: &Faulty) -> bool {
    let (wanted, bytes, reply, fault) = *row;
    starts(reader, wanted)
        && reader.push(bytes) == bytes.len()
        && (reply.is_none() || reader.next(reply) == Next::Wanted)
        && stays(reader, fault)
}

#[test]
fn faults(rt: HostRuntime) -> Result<(), Fail> {
    let mut reader = Listener::new(rt.alloc())?;
    for row in &FAULTY {
        assert!(rt; is_shown(&mut reader, row));
    }
    Ok(())
}
