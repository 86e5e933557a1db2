//! Reads the number that bytes begin with.

ghost use Rattle.std.specs.Prelude.{◌≡◌, ◌<◌, length, IfOk, IfSome};
ghost use Rattle.rmt_wire.specs.Parsed as spec;

use crate::fault::WireFault;
use crate::limits::NUMBER_LIMIT;

const MOST_DIGITS: usize = 10;

/// The line that a number is on.
#[derive(Clone, Copy)]
pub enum Place {
    Line,
    /// A mode line, where a space ends the number too.
    Mode,
    /// The line of a reply with data, with the most bytes that are wanted.
    Data(u32),
}

impl Place {
    fn ends_number(self, byte: u8) -> bool
        ensures { result ≡ spec.ends_number self byte }
    {
        match self {
            Place::Line | Place::Data(_) => byte == b'\n',
            Place::Mode => byte == b'\n' || byte == b' ',
        }
    }

    fn is_too_much(self, value: u64) -> bool
        ensures { result ≡ spec.is_too_much self value }
    {
        match self {
            Place::Line | Place::Mode => false,
            Place::Data(most) => value > u64::from(most),
        }
    }
}

/// Returns the number and how many digits it has, or None if it has not ended.
pub fn number_front(bytes: &[u8], place: Place) -> Result<Option<(u32, usize)>, WireFault>
    ensures value { result ≡ spec.number_front place bytes.now }
    ensures within { IfOk result (λ o. IfSome o (λ n. n.1 < length bytes.now)) }
{
    let mut value = 0u32;
    for (len, byte) in bytes.iter().enumerate() {
        if !byte.is_ascii_digit() {
            if len > 0 && place.ends_number(*byte) {
                return Ok(Some((value, len)));
            }
            return Err(WireFault::BadNumber);
        }
        let next = u64::from(value) * 10 + u64::from(*byte - b'0');
        if place.is_too_much(next) {
            return Err(WireFault::TooMuchData);
        }
        if len == MOST_DIGITS || next > u64::from(NUMBER_LIMIT) {
            return Err(WireFault::BadNumber);
        }
        value = next as u32;
    }
    Ok(None)
}
