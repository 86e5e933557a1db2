//! The buffer of a reader, which is reserved once.
ghost use Rattle.std.specs.Prelude.{◌≡◌, ◌+◌, ◌-◌, ◌<◌, ◌≤◌, ℕ, List, ◌++◌, length, take, drop, IfOk, OnOk, OnErr};
ghost use Rattle.std.specs.Io.KnownBytes.{Consumes, Keeps, IsAtEnd};
ghost use Rattle.rmt_wire.specs.Counted.{raised};
ghost use Rattle.rmt_wire.specs.ReplyFill.{IsReceived};

use crate::counted::Counted;
use crate::limits::READER_LIMIT;
use bytes::BytesMut;
use std::io::{self, Read};

pub fn remove(buffer: &mut BytesMut, at: usize, count: usize)
    requires { at + count ≤ length buffer.old.items }
    ensures items { buffer.new.items ≡ take at buffer.old.items ++ drop (at + count) buffer.old.items }
    ensures room { length buffer.new.items + buffer.new.spare ≡ length buffer.old.items + buffer.old.spare }
{
    if count == 0 {
        return;
    }
    let len = buffer.len();
    buffer.as_mut_slice().copy_within(at + count.., at);
    buffer.truncate(len - count);
}

/// Appends a piece. If room is lacking, first moves the bytes kept to the front. Returns where they
/// begin now.
pub fn append(buffer: &mut BytesMut, start: usize, piece: &[u8]) -> usize
    requires start { start ≤ length buffer.old.items }
    requires room { length buffer.old.items - start + length piece.now ≤ READER_LIMIT }
    requires limit { (length buffer.old.items ≤ READER_LIMIT) × (READER_LIMIT ≤ length buffer.old.items + buffer.old.spare) }
    ensures kept { drop result buffer.new.items ≡ drop start buffer.old.items ++ piece.now }
    ensures start { result ≤ length buffer.new.items }
    ensures limit { (length buffer.new.items ≤ READER_LIMIT) × (READER_LIMIT ≤ length buffer.new.items + buffer.new.spare) }
{
    if buffer.len() + piece.len() <= READER_LIMIT {
        buffer.extend_reserved(piece);
        return start;
    }
    remove(buffer, 0, start);
    buffer.extend_reserved(piece);
    0
}

/// Reads a stream once, up to `most` bytes, straight into the buffer. Returns how many came.
pub fn append_read<R: Read>(
    buffer: &mut BytesMut,
    most: usize,
    stream: &mut Counted<R>,
) -> io::Result<usize>
    requires { most ≤ buffer.old.spare }
    ensures came { IfOk result (λ n. (came : List ℕ) × (length came ≡ n) × (buffer.new.items ≡ buffer.old.items ++ came)
        × Consumes (R.remaining stream.old.inner) (R.remaining stream.new.inner) came) }
    ensures most { IfOk result (λ n. n ≤ most) }
    ensures ended { IfOk result (λ n. n ≡ 0 → 0 < most → IsAtEnd (R.remaining stream.new.inner)) }
    ensures failed { OnErr result ((buffer.new.items ≡ buffer.old.items)
        × Keeps (R.remaining stream.old.inner) (R.remaining stream.new.inner)) }
    ensures room { length buffer.new.items + buffer.new.spare ≡ length buffer.old.items + buffer.old.spare }
    ensures counted { OnErr result (stream.new.failures ≡ raised stream.old.failures) }
    ensures steady { OnOk result (stream.new.failures ≡ stream.old.failures) }
    ensures left { OnOk result (stream.new.left + 1 ≡ stream.old.left) }
{
    let len = buffer.len();
    buffer.advance_mut(most);
    match stream.read(&mut buffer.as_mut_slice()[len..]) {
        Ok(count) => {
            buffer.truncate(len + count);
            Ok(count)
        }
        Err(error) => {
            buffer.truncate(len);
            Err(error)
        }
    }
}

/// Calls `receive` once, with a room of `size` bytes at the end. Returns how many came, at most
/// `size`.
pub fn append_received<F: FnMut(&mut [u8]) -> usize>(
    buffer: &mut BytesMut,
    size: usize,
    receive: &mut F,
) -> usize
    requires size { size ≤ buffer.old.spare }
    requires called { F.IsAlwaysCallable receive.old }
    ensures came { (received : IsReceived (F.step receive.old) receive.new size result)
        × (buffer.new.items ≡ buffer.old.items ++ take result received.left.now) }
    ensures room { length buffer.new.items + buffer.new.spare ≡ length buffer.old.items + buffer.old.spare }
{
    let len = buffer.len();
    buffer.advance_mut(size);
    let count = receive(&mut buffer.as_mut_slice()[len..]).min(size);
    buffer.truncate(len + count);
    count
}
