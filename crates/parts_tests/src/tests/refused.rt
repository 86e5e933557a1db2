//! What errors of a server mean, against words written by hand.

use refusals::{Refusal, TapeRequest, request_of};
use std::alloc::AllocError;

/// Requests, and which ones they are.
static REQUESTS: [(&[u8], Option<TapeRequest>); 16] = [
    (b"O/dev/st0\n2\n", Some(TapeRequest::Open)),
    (b"C\n", Some(TapeRequest::Close)),
    (b"R1024\n", Some(TapeRequest::Read)),
    (b"W2\nhi", Some(TapeRequest::Write)),
    (b"I0\n1\n", Some(TapeRequest::WriteMark)),
    (b"I1\n1\n", Some(TapeRequest::Space)),
    (b"I2\n1\n", Some(TapeRequest::Space)),
    (b"I3\n1\n", Some(TapeRequest::Space)),
    (b"I4\n1\n", Some(TapeRequest::Space)),
    (b"I5\n1\n", Some(TapeRequest::Rewind)),
    (b"I6\n1\n", Some(TapeRequest::Offline)),
    (b"I7\n1\n", Some(TapeRequest::Nop)),
    (b"I", None),
    (b"W2", Some(TapeRequest::Write)),
    (b"L0\n0\n", None),
    (b"", None),
];

#[test]
fn requests_are_told_apart(rt: HostRuntime) {
    for (at, (bytes, wanted)) in REQUESTS.iter().enumerate() {
        super::check_row(&rt, at, request_of(bytes) == *wanted);
    }
}

/// Refused requests, each with its number, the name of the drive and the text.
static TEXTS: [(TapeRequest, u32, &str, &str); 5] = [
    (
        TapeRequest::Open,
        6,
        "/dev/st0",
        "no reel is on the stack of /dev/st0: put one into its folder",
    ),
    (
        TapeRequest::Open,
        2,
        "/dev/\x1bst9",
        "the server has no drive /dev/?st9: correct --device, or the arguments of the server",
    ),
    (
        TapeRequest::Rewind,
        5,
        "/dev/st0",
        "the drive /dev/st0 failed: the server's log has the reason",
    ),
    (
        TapeRequest::LongWrite,
        22,
        "/dev/st0",
        "an older server takes blocks of at most 65,536 bytes: use a smaller --block",
    ),
    (
        TapeRequest::Close,
        1,
        "/dev/st0",
        "Operation not permitted (os error 1)",
    ),
];

#[test]
fn refusals_are_put_in_words(rt: HostRuntime) -> Result<(), AllocError> {
    for (at, (asked, number, device, wanted)) in TEXTS.iter().enumerate() {
        let refusal = Refusal::new(*asked, *number, device);
        let text = format!(in rt.alloc(); "{refusal}")?;
        super::check_row(&rt, at, text.as_str() == *wanted);
    }
    Ok(())
}
