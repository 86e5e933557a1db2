//! Calls of reels as values, for use in tables.

use tape::{Reel, TapeFault, is_record};

/// A call of a reel.
#[derive(Clone, Copy)]
pub(crate) enum Call {
    Write(&'static [u8]),
    /// A read into this many bytes, at most 8.
    Read(usize),
    /// An operation of mtio, and its count.
    Op(u32, u32),
    Rewind,
}

/// A call and its expected result: the bytes that it returns.
pub(crate) type Wanted = (Call, Result<&'static [u8], TapeFault>);

/// Makes the call and returns its bytes. Bytes that are not a record are not written, and
/// `EndOrMark` is returned.
fn make_call<'a, R: Reel>(
    reel: &mut R,
    request: Call,
    into: &'a mut [u8; 8],
) -> Result<&'a [u8], TapeFault> {
    let Call::Read(count) = request else {
        make_blindly(reel, request)?;
        return Ok(&[]);
    };
    let part = &mut into[..count.min(8)];
    let given = reel.read(part)?;
    Ok(&part[..given])
}

/// Makes a call that returns no bytes. For a read it does nothing.
fn make_blindly<R: Reel>(reel: &mut R, request: Call) -> Result<(), TapeFault> {
    match request {
        Call::Write(bytes) if is_record(bytes) => reel.write(bytes),
        Call::Write(_) => Err(TapeFault::EndOrMark),
        Call::Op(op, count) => reel.op(op, count),
        Call::Rewind => {
            reel.rewind();
            Ok(())
        }
        Call::Read(_) => Ok(()),
    }
}

/// Whether each call has the expected result.
pub(crate) fn answers<R: Reel>(reel: &mut R, calls: &[Wanted]) -> bool {
    for (request, wanted) in calls {
        let mut into = [0u8; 8];
        if make_call(reel, *request, &mut into) != *wanted {
            return false;
        }
    }
    true
}
