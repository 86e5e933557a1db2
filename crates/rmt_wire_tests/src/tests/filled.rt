//! Tests of a reader of requests that is filled from a stream.
ghost use Rattle.std.specs.Prelude.{ℕ, List};
ghost use Rattle.rmt_wire.specs.RequestReader.{Unread};

use rmt_wire::{Counted, READER_LIMIT, Request, RequestReader, WireFault};
use std::alloc::{AllocError, Global};
use std::io::Read;
use std::test::Fail;

/// Returns how many bytes came from the stream, if the reader had no request to return.
fn filled<R: Read>(reader: &mut RequestReader, stream: &mut Counted<R>) -> Option<usize>
    requires { (bytes : List ℕ) × Unread reader.old bytes }
{
    match reader.next() {
        Ok(None) => reader.fill(stream).ok(),
        _ => None,
    }
}

/// Whether the reader returns a close, and waits for more bytes then.
fn closes_and_waits(reader: &mut RequestReader) -> bool {
    matches!(reader.next(), Ok(Some(Request::Close))) && matches!(reader.next(), Ok(None))
}

#[test]
fn a_stream_fills_a_reader(rt: HostRuntime) -> Result<(), Fail> {
    let mut reader = RequestReader::new(rt.alloc())?;
    let mut stream = Counted::new(b"C\nR1".as_slice());
    let read = filled(&mut reader, &mut stream);
    assert!(rt; read == Some(4) && closes_and_waits(&mut reader));
    Ok(())
}

/// Returns a write of 6,000 bytes, and the beginning of the next request.
fn block_and_more(alloc: Global) -> Result<Vec<u8>, AllocError> {
    let mut bytes = Vec::from_slice(alloc, b"W6000\n")?;
    bytes.resize(6006, b'x')?;
    bytes.extend_from_slice(b"R1")?;
    Ok(bytes)
}

/// Whether this is the write of 6,000 bytes.
fn is_block(request: Result<Option<Request<'_>>, WireFault>) -> bool {
    match request {
        Ok(Some(Request::Write { bytes })) => bytes.len() == 6000
            && bytes.iter().all(|it| *it == b'x'),
        _ => false,
    }
}

/// Whether the reader has so many unread bytes, returns the write, and has two unread bytes then.
fn gives_block(reader: &mut RequestReader) -> bool {
    reader.room().saturating_add(6008) == READER_LIMIT
        && is_block(reader.next())
        && reader.room().saturating_add(2) == READER_LIMIT
}

/// One read brings a block and the beginning of the next request, and both are unread then.
#[test]
fn one_read_fills_a_reader_with_a_block(rt: HostRuntime) -> Result<(), Fail> {
    let bytes = block_and_more(rt.alloc())?;
    let mut reader = RequestReader::new(rt.alloc())?;
    let mut stream = Counted::new(bytes.as_slice());
    let read = filled(&mut reader, &mut stream);
    assert!(rt; read == Some(6008) && gives_block(&mut reader));
    Ok(())
}

#[test]
fn an_end_fills_a_reader_with_nothing(rt: HostRuntime) -> Result<(), Fail> {
    let mut reader = RequestReader::new(rt.alloc())?;
    let mut stream = Counted::new(b"".as_slice());
    let read = filled(&mut reader, &mut stream);
    assert!(rt; read == Some(0) && reader.is_empty() && stream.failures() == 0);
    Ok(())
}

/// Whether the requests of a stream are a close and a read of one byte.
fn closes_and_reads<R: Read>(reader: &mut RequestReader, stream: &mut Counted<R>) -> bool
    requires { (bytes : List ℕ) × Unread reader.old bytes }
{
    matches!(reader.read_next(stream), Ok(Some(Request::Close)))
        && matches!(
            reader.read_next(stream),
            Ok(Some(Request::Read { count: 1 }))
        )
        && matches!(reader.read_next(stream), Ok(None))
}

#[test]
fn a_stream_is_read_request_by_request(rt: HostRuntime) -> Result<(), Fail> {
    let mut reader = RequestReader::new(rt.alloc())?;
    let mut stream = Counted::new(b"C\nR1\n".as_slice());
    assert!(rt; closes_and_reads(&mut reader, &mut stream));
    Ok(())
}

/// Returns the count of the next request of a stream, which is 0 for a close.
fn count_of<R: Read>(reader: &mut RequestReader, stream: &mut Counted<R>) -> Option<u32>
    requires { (bytes : List ℕ) × Unread reader.old bytes }
    ensures { (bytes : List ℕ) × Unread reader.new bytes }
{
    match reader.read_next(stream) {
        Ok(Some(Request::Close)) => Some(0),
        Ok(Some(Request::WriteDropped { count })) => Some(count),
        Ok(Some(Request::Read { count })) => Some(count),
        _ => None,
    }
}

/// Returns a close, a write whose data are dropped, and a read.
fn dropped_between(alloc: Global) -> Result<Vec<u8>, AllocError> {
    let mut bytes = Vec::from_slice(alloc, b"C\nW600000\n")?;
    bytes.resize(600010, b'x')?;
    bytes.extend_from_slice(b"R1\n")?;
    Ok(bytes)
}

/// Whether the requests of a stream are those three, and nothing is unread then.
fn reads_through<R: Read>(reader: &mut RequestReader, stream: &mut Counted<R>) -> bool
    requires { (bytes : List ℕ) × Unread reader.old bytes }
{
    count_of(reader, stream) == Some(0)
        && count_of(reader, stream) == Some(600000)
        && count_of(reader, stream) == Some(1)
        && reader.is_empty()
}

/// The data of the dropped write fill the reader after the close. They take no room once the close
/// was returned.
#[test]
fn a_dropped_write_is_read_through(rt: HostRuntime) -> Result<(), Fail> {
    let bytes = dropped_between(rt.alloc())?;
    let mut reader = RequestReader::new(rt.alloc())?;
    let mut stream = Counted::new(bytes.as_slice());
    assert!(rt; reads_through(&mut reader, &mut stream));
    Ok(())
}
