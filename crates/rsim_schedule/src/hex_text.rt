//! Bytes in hexadecimal.
ghost use Rattle.std.specs.Prelude.{◌≤◌};

use std::alloc::{AllocError, Global};

/// A text of one or more bytes in hexadecimal, two lower-case digits for each.
#[derive(Clone, Copy)]
pub(crate) struct HexText<'a> {
    digits: &'a [u8],
}

impl<'a> HexText<'a> {
    /// Checks the digits. Returns `None` if there are none, their number is odd, or one is not a
    /// lower-case hexadecimal digit.
    pub(crate) fn new(digits: &'a [u8]) -> Option<HexText<'a>> {
        if digits.is_empty() || digits.len() % 2 != 0 || !digits.iter().all(is_digit) {
            return None;
        }
        Some(HexText { digits })
    }

    /// Returns the bytes.
    pub(crate) fn bytes(&self, alloc: Global) -> Result<Vec<u8>, AllocError> {
        let mut bytes = Vec::new(alloc);
        for pair in self.digits.chunks(2) {
            bytes.push(byte_of(pair))?;
        }
        Ok(bytes)
    }
}

/// Returns the byte that two digits spell, or 0 if there are not exactly two.
fn byte_of(digits: &[u8]) -> u8 {
    match digits {
        [high, low] => digit_value(*high) * 16 + digit_value(*low),
        _ => 0,
    }
}

fn is_digit(byte: &u8) -> bool {
    matches!(*byte, b'0'..=b'9' | b'a'..=b'f')
}

/// Returns the value of a digit, or 0 for any other byte.
fn digit_value(digit: u8) -> u8
    ensures { result ≤ 15 }
{
    match digit {
        b'0'..=b'9' => digit - b'0',
        b'a'..=b'f' => digit - b'a' + 10,
        _ => 0,
    }
}
