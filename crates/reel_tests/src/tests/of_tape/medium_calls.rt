//! Calls of media as values, for use in tables.

use tape::{Medium, MediumFailed};

/// A call of a medium.
pub(crate) enum MediumCall {
    Len,
    /// A read from this offset on, into this many dots, at most 16.
    ReadAt(u64, usize),
    Append(&'static [u8]),
    /// The frame, and the bytes.
    AppendFramed(&'static [u8], &'static [u8]),
    Cut(u64),
    Failures,
}

/// A call and its expected result: the number that it returns, or 0, and the buffer of a read after
/// it.
pub(crate) type WantedOfMedium = (MediumCall, Result<(u64, &'static [u8]), MediumFailed>);

/// The result of a call that returns nothing.
pub(crate) const DONE: Result<(u64, &[u8]), MediumFailed> = Ok((0, b""));

/// Makes the call. Returns its number, or 0, and the buffer of a read.
fn make_medium_call<'a, M: Medium>(
    medium: &mut M,
    call: &MediumCall,
    into: &'a mut [u8; 16],
) -> Result<(u64, &'a [u8]), MediumFailed> {
    let MediumCall::ReadAt(at, count) = call else {
        return Ok((number_of(medium, call)?, &[]));
    };
    let part = &mut into[..(*count).min(16)];
    let given = medium.read_at(*at, part)?;
    Ok((given as u64, part))
}

/// Makes a call that is not a read. Returns its number, or 0.
fn number_of<M: Medium>(medium: &mut M, call: &MediumCall) -> Result<u64, MediumFailed> {
    match call {
        MediumCall::Len => medium.len(),
        MediumCall::Failures => Ok(medium.failures()),
        _ => {
            change(medium, call)?;
            Ok(0)
        }
    }
}

/// Makes a call that changes the medium. For other calls it does nothing.
fn change<M: Medium>(medium: &mut M, call: &MediumCall) -> Result<(), MediumFailed> {
    match call {
        MediumCall::Append(bytes) => medium.append(bytes),
        MediumCall::AppendFramed(frame, bytes) => medium.append_framed(frame, bytes),
        MediumCall::Cut(len) => medium.cut(*len),
        _ => Ok(()),
    }
}

/// Whether each call has the expected result.
pub(crate) fn medium_answers<M: Medium>(medium: &mut M, calls: &[WantedOfMedium]) -> bool {
    for (call, wanted) in calls {
        let mut into = [b'.'; 16];
        if make_medium_call(medium, call, &mut into) != *wanted {
            return false;
        }
    }
    true
}
