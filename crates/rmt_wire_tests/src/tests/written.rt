//! Tests of what is written for replies: numbers, data, and an error of a server.
use super::calls::is_written;
use rmt_wire::{NUMBER_LIMIT, Reply};

/// Numbers, and what is written for them.
static NUMBERS: [(u32, &[u8]); 8] = [
    (0, b"A0\n"),
    (9, b"A9\n"),
    (10, b"A10\n"),
    (99, b"A99\n"),
    (100, b"A100\n"),
    (262144, b"A262144\n"),
    (1000000000, b"A1000000000\n"),
    (2147483647, b"A2147483647\n"),
];

#[test]
fn numbers(rt: HostRuntime) {
    for (number, text) in &NUMBERS {
        let number = *number;
        assert!(rt; number <= NUMBER_LIMIT);
        assert!(rt; is_written(rt.alloc(), &Reply::Done { number }, text, 1));
    }
}

/// Data, what is written for them, and in how many calls if each call takes all bytes.
static FEW_BYTES: [(&[u8], &[u8], usize); 9] = [
    (b"", b"A0\n", 1),
    (b"0\n", b"A2\n0\n", 2),
    (b"abc", b"A3\nabc", 2),
    (b"hello", b"A5\nhello", 2),
    (b"A0\nE5", b"A5\nA0\nE5", 2),
    (b"\n", b"A1\n\n", 2),
    (b"\n\n\n\n\n", b"A5\n\n\n\n\n\n", 2),
    (b"01234", b"A5\n01234", 2),
    (b"\0\xff\r AE", b"A6\n\0\xff\r AE", 2),
];

#[test]
fn data_of_few_bytes(rt: HostRuntime) {
    for (bytes, text, calls) in &FEW_BYTES {
        assert!(rt; bytes.len() <= 6);
        assert!(rt; is_written(rt.alloc(), &Reply::Data { bytes }, text, *calls));
    }
}

#[test]
fn an_error_of_a_server(rt: HostRuntime) {
    let text = b"Device busy";
    let reply = Reply::Error { number: 16, text };
    assert!(rt; is_written(rt.alloc(), &reply, b"E16\nDevice busy\n", 1));
}
