//! Tests of replies with texts written by hand: those of a conversation, and single ones.

use super::listener::{Listener, Next};
use rmt_wire::{Reply, Wanted};
use std::test::Fail;

/// The kind of reply that is waited for, the bytes that come then, and the reply that they are.
type Exchange = (Wanted, &'static [u8], Reply<'static>);

const NONE: Reply = Reply::Data { bytes: b"" };

const ABCD: Reply = Reply::Data { bytes: b"abcd" };

const ZERO: Reply = Reply::Done { number: 0 };

const ONE: Reply = Reply::Done { number: 1 };

const GREATEST: Reply = Reply::Done { number: 2147483647 };

const OFFLINE: Reply = Reply::Error {
    number: 6,
    text: b"Device not configured",
};

/// Replies, one after the other: those of a conversation, numbers, data, and errors.
static REPLIES: [Exchange; 24] = [
    // a record is written and read back
    (Wanted::Number, b"A5\n", Reply::Done { number: 5 }),
    (
        Wanted::Data(10),
        b"A5\nhello",
        Reply::Data { bytes: b"hello" },
    ),
    // the largest write
    (Wanted::Number, b"A262144\n", Reply::Done { number: 262144 }),
    // a number, and data of fewer bytes than were wanted
    (Wanted::Data(9), b"A2\nab", Reply::Data { bytes: b"ab" }),
    (Wanted::Number, b"A0000000001\n", ONE),
    (Wanted::Data(3), b"A03\nabc", Reply::Data { bytes: b"abc" }),
    // numbers
    (Wanted::Number, b"A0000000000\n", ZERO),
    (Wanted::Number, b"A1025\n", Reply::Done { number: 1025 }),
    (Wanted::Number, b"A2147483647\n", GREATEST),
    // data of reads
    (Wanted::Data(0), b"A0\n", NONE),
    (Wanted::Data(1), b"A0000000000\n", NONE),
    (Wanted::Data(4), b"A4\nabcd", ABCD),
    (Wanted::Data(5), b"A0000000004\nabcd", ABCD),
    (Wanted::Data(1), b"A1\n\n", Reply::Data { bytes: b"\n" }),
    (Wanted::Data(3), b"A3\nA0\n", Reply::Data { bytes: b"A0\n" }),
    (
        Wanted::Data(10),
        b"A6\nE5\nx\n\0",
        Reply::Data {
            bytes: b"E5\nx\n\0",
        },
    ),
    (
        Wanted::Data(4),
        b"A04\n\n\n\n\n",
        Reply::Data { bytes: b"\n\n\n\n" },
    ),
    // errors, whatever is waited for
    (
        Wanted::Data(262144),
        b"E0000000006\nDevice not configured\n",
        OFFLINE,
    ),
    (
        Wanted::Number,
        b"E2\nNo such file or directory\n",
        Reply::Error {
            number: 2,
            text: b"No such file or directory",
        },
    ),
    (
        Wanted::Data(262144),
        b"E16\nDevice busy\n",
        Reply::Error {
            number: 16,
            text: b"Device busy",
        },
    ),
    (
        Wanted::Data(0),
        b"E5\nBusy\n",
        Reply::Error {
            number: 5,
            text: b"Busy",
        },
    ),
    (
        Wanted::Data(262144),
        b"E0\n\n",
        Reply::Error {
            number: 0,
            text: b"",
        },
    ),
    (
        Wanted::Number,
        b"E2147483647\nA0\n",
        Reply::Error {
            number: 2147483647,
            text: b"A0",
        },
    ),
    (
        Wanted::Data(0),
        b"E5\n\0\r\xff \n",
        Reply::Error {
            number: 5,
            text: b"\0\r\xff ",
        },
    ),
];

/// Whether the reader takes the piece, and then returns no reply.
fn takes(reader: &mut Listener, piece: &[u8]) -> bool {
    reader.push(piece) == piece.len() && reader.next(None) == Next::None(None)
}

/// Whether the reader returns this reply, and then none, with nothing unread.
fn gives(reader: &mut Listener, reply: Reply<'_>) -> bool {
    reader.next(Some(reply)) == Next::Wanted
        && reader.next(None) == Next::None(None)
        && reader.holds(0)
}

/// Whether the reader waits for the reply and returns it if it comes in two pieces.
fn is_given(reader: &mut Listener, exchange: &Exchange) -> bool {
    let (wanted, bytes, reply) = *exchange;
    let (first, second) = bytes.split_at(bytes.len() / 2);
    reader.wait(wanted)
        && takes(reader, first)
        && reader.push(second) == second.len()
        && gives(reader, reply)
}

#[test]
fn replies_in_a_row(rt: HostRuntime) -> Result<(), Fail> {
    let mut reader = Listener::new(rt.alloc())?;
    for exchange in &REPLIES {
        assert!(rt; is_given(&mut reader, exchange));
    }
    Ok(())
}
