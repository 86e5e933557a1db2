//! A short text in an array of `LINE_LIMIT` bytes.

ghost use Rattle.std.specs.Prelude.{◌≡◌, ◌≤◌, length};

use rmt_wire::LINE_LIMIT;
use std::marker::Model;

#[derive(Drop)]
pub(crate) struct Row {
    bytes: [u8; LINE_LIMIT],
    end: usize,
}

impl Model for Row {
    ghost use Rattle.std.specs.Prelude.{List, ℕ, ◌≤◌, take};

    ghost Value = { List ℕ };

    ghost view = { λ row. take row.end row.bytes };

    ghost invariant = { λ row. row.end ≤ 255 };
}

impl Row {
    pub(crate) fn new(text: &[u8]) -> Row
        requires { length text.now ≤ 255 }
        ensures { result ≡ text.now }
    {
        let mut bytes = [0; LINE_LIMIT];
        bytes[..text.len()].copy_from_slice(text);
        Row {
            bytes,
            end: text.len(),
        }
    }

    pub(crate) fn as_slice(&self) -> &[u8]
        ensures { result.now ≡ self.now }
    {
        &self.bytes[..self.end]
    }
}
