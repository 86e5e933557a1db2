//! Device names and numbers in arguments.
ghost use Rattle.std.specs.Prelude.{◌↔◌, IsTrue, length};
ghost use Rattle.std.specs.Int.{IsInRange};
ghost use Rattle.rmt_wire.specs.Number.{HasNoLineFeed};
ghost use Rattle.rmt_wire.specs.Argument.{SaysNumber};

use crate::limits::LINE_LIMIT;

/// The largest number that an argument may give: 2^63 - 1.
pub const ARGUMENT_LIMIT: u64 = 9_223_372_036_854_775_807;

/// Returns whether the bytes can name a drive in an open of rmt(8): 1 to 255 bytes, no line feed.
pub fn is_device(device: &[u8]) -> bool
    ensures { IsTrue result ↔ IsInRange 1 255 (length device.now) × HasNoLineFeed device.now }
{
    !device.is_empty() && device.len() <= LINE_LIMIT && device.iter().all(|b| *b != b'\n')
}

/// Returns the number, at most `ARGUMENT_LIMIT`, that a text of decimal digits spells, and None for
/// any other text.
pub fn number_of(text: &str) -> Option<u64>
    ensures { SaysNumber text.now result }
{
    if text.as_bytes().first() == Some(&b'+') {
        return None;
    }
    match text.parse::<u64>() {
        Ok(n) if n <= ARGUMENT_LIMIT => Some(n),
        _ => None,
    }
}
