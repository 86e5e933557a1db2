//! The text of a checkpoint: written by hand, cut at each byte, and with each byte changed. It is
//! compared with a plain decoder.

use super::decoder::{Verdict, verdict_of};
use dump_run::{Checkpoint, ResumeFault, Run, one_checkpoint, push_checkpoint};
use std::alloc::Global;

/// The checkpoint of a run of three blocks, with two counted volumes.
const TEXT: &[u8] =
    b"rdump 1\ndevice /dev/st0\nfs /usr\nlevel 0\ndate 951782400\nsince 0\nblock 1024\nblocks 3\ncounted 1 0 2\ncounted 2 2 1\n";

/// The number of bytes before the counts.
const HEAD: usize = 83;

/// The text after the lines of the run, and the verdict on the whole text.
type Row = (&'static [u8], Verdict);

static COUNTS: [Row; 16] = [
    (b"", Verdict::Spells),
    (b"counted 1 0 3\n", Verdict::Spells),
    (
        b"counted 1 0 1\ncounted 2 1 1\ncounted 3 2 1\n",
        Verdict::Spells,
    ),
    (b"counted 1 0 2", Verdict::BadLine(9)),
    (b"counted 1 0\n", Verdict::BadLine(9)),
    (b"counted 1 0 2 3\n", Verdict::BadLine(9)),
    (b"counted 1 0 02\n", Verdict::BadLine(9)),
    (b"counted 1 0 +2\n", Verdict::BadLine(9)),
    (b"counted 1  2\n", Verdict::BadLine(9)),
    (b"counted 1 0 2\n\n", Verdict::BadLine(10)),
    (
        b"counted 7 0 2\ncounted 1 0 2147483648\n",
        Verdict::BadLine(10),
    ),
    (b"counted 1 0 0\n", Verdict::NotInOrder(9)),
    (b"counted 2 0 2\n", Verdict::NotInOrder(9)),
    (b"counted 1 0 4\n", Verdict::NotInOrder(9)),
    (b"counted 1 0 2\ncounted 2 1 1\n", Verdict::NotInOrder(10)),
    (b"counted 1 0 3\ncounted 2 3 0\n", Verdict::NotInOrder(10)),
];

/// Whether the checkpoint is written as these bytes.
fn is_written_so(alloc: Global, checkpoint: &Checkpoint, bytes: &[u8]) -> bool {
    let mut text = Vec::new(alloc);
    push_checkpoint(checkpoint.run(), checkpoint.counts(), &mut text).is_ok()
        && text.as_slice() == bytes
}

/// Whether reading the text gives this verdict.
fn is_read_so(alloc: Global, bytes: &[u8], verdict: Verdict) -> bool {
    match Checkpoint::read(alloc, bytes) {
        Ok(checkpoint) => verdict == Verdict::Spells && is_written_so(alloc, &checkpoint, bytes),
        Err(ResumeFault::BadLine(number)) => verdict == Verdict::BadLine(number),
        Err(ResumeFault::NotInOrder(number)) => verdict == Verdict::NotInOrder(number),
        Err(ResumeFault::OutOfMemory) => false,
    }
}

/// Whether the crate and the decoder both give the row's verdict, with the lines of the run before
/// its text.
fn row_is_met(alloc: Global, row: &Row) -> bool {
    let mut bytes = Vec::new(alloc);
    bytes.extend_from_slice(&TEXT[..HEAD]).is_ok()
        && bytes.extend_from_slice(row.0).is_ok()
        && verdict_of(&bytes) == row.1
        && is_read_so(alloc, &bytes, row.1)
}

#[test]
fn counts_by_hand(rt: HostRuntime) {
    for row in &COUNTS {
        assert!(rt; row_is_met(rt.alloc(), row));
    }
}

#[test]
fn a_text_that_is_cut(rt: HostRuntime) {
    for len in 0..TEXT.len() {
        let part = &TEXT[..len];
        assert!(rt; is_read_so(rt.alloc(), part, verdict_of(part)));
    }
}

/// The values with which a byte is XORed.
static CHANGES: [u8; 6] = [1, 2, 4, 16, b'0' ^ b'\n', 128];

/// Whether the crate and the decoder agree, with each change of the byte at `at`.
fn changes_are_met(alloc: Global, bytes: &mut Vec<u8>, at: usize) -> bool {
    for change in &CHANGES {
        let Some(byte) = bytes.get_mut(at) else {
            return false;
        };
        let was = *byte;
        *byte = was ^ change;
        if !is_read_so(alloc, bytes, verdict_of(bytes)) {
            return false;
        }
        if let Some(byte) = bytes.get_mut(at) {
            *byte = was;
        }
    }
    true
}

#[test]
fn a_text_with_a_byte_changed(rt: HostRuntime) {
    let mut bytes = Vec::from_slice(rt.alloc(), TEXT).expect(&rt, "memory");
    for at in 0..TEXT.len() {
        assert!(rt; changes_are_met(rt.alloc(), &mut bytes, at));
    }
    assert!(rt; verdict_of(&bytes) == Verdict::Spells);
}

/// Whether the run of `TEXT` is the same dump as `run`, and has the dates of the text.
fn run_is_met(alloc: Global, run: &Run) -> bool {
    let Ok(found) = Run::spelled(alloc, TEXT) else {
        return false;
    };
    found.is_same_dump(run) && found.date() == 951782400 && found.since() == 0
}

#[test]
fn a_run_is_read(rt: HostRuntime) {
    let usr = Run::new(b"/dev/st0", "/usr", 0, 7, 5, 1024, 3).expect(&rt, "a run");
    let home = Run::new(b"/dev/st0", "/home", 0, 7, 5, 1024, 3).expect(&rt, "a run");
    assert!(rt; run_is_met(rt.alloc(), &usr));
    assert!(rt; !usr.is_same_dump(&home));
    one_checkpoint();
}

/// Whether a fault is printed as this text.
fn is_printed_so(alloc: Global, fault: ResumeFault, text: &str) -> bool {
    match fault.to_string(alloc) {
        Ok(printed) => printed.as_str() == text,
        Err(_) => false,
    }
}

#[test]
fn faults_are_printed(rt: HostRuntime) {
    assert!(rt; is_printed_so(rt.alloc(), ResumeFault::BadLine(3), "line 3: bad line"));
    assert!(rt;
        is_printed_so(
            rt.alloc(),
            ResumeFault::NotInOrder(10),
            "line 10: not in order"
        )
    );
    assert!(rt; is_printed_so(rt.alloc(), ResumeFault::OutOfMemory, "out of memory"));
}
