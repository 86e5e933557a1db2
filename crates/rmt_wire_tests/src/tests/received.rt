//! Tests of a reader of replies that receives straight into its buffer.

use rmt_wire::{Reply, ReplyReader, Wanted};
use std::test::Fail;

/// Puts bytes at the front of a buffer, as many as fit. Returns how many.
fn put(bytes: &[u8], into: &mut [u8]) -> usize {
    let count = bytes.len().min(into.len());
    into[..count].copy_from_slice(&bytes[..count]);
    count
}

/// Whether these bytes come whole into the reader.
fn receives(reader: &mut ReplyReader, bytes: &[u8]) -> bool {
    reader.fill(&mut |into: &mut [u8]| put(bytes, into)) == bytes.len()
}

/// Whether the reply is this record.
fn is_record(reply: &Reply<'_>, record: &[u8]) -> bool {
    matches!(reply, Reply::Data { bytes } if *bytes == record)
}

#[test]
fn a_reader_receives_a_reply_in_two_pieces(rt: HostRuntime) -> Result<(), Fail> {
    let mut reader = ReplyReader::new(rt.alloc())?;
    reader.expect(Wanted::Data(4));
    assert!(rt; receives(&mut reader, b"A4\nab") && matches!(reader.next(), Ok(None)));
    assert!(rt; receives(&mut reader, b"cd"));
    assert!(rt; matches!(reader.next(), Ok(Some(reply)) if is_record(&reply, b"abcd")));
    assert!(rt; reader.is_empty());
    Ok(())
}

#[test]
fn a_reply_is_seen_with_what_follows_it(rt: HostRuntime) -> Result<(), Fail> {
    let mut reader = ReplyReader::new(rt.alloc())?;
    reader.expect(Wanted::Data(2));
    assert!(rt; receives(&mut reader, b"A2\nabA0\n"));
    assert!(rt; matches!(reader.peek(), Ok(Some((reply, 3))) if is_record(&reply, b"ab")));
    assert!(rt; matches!(reader.next(), Ok(Some(reply)) if is_record(&reply, b"ab")));
    Ok(())
}
