//! A short text on the stack.

ghost use Rattle.std.specs.Prelude.{◌≡◌, ◌+◌, ◌<◌, ◌≤◌, [], ◌∷◌, ◌++◌, length, decimal};
ghost use Rattle.rmt_wire.specs.Number.{line_feed};

use crate::limits::{LINE_LIMIT, NUMBER_LIMIT};
use itoa::Buffer;
use std::marker::Model;

// A letter, ten digits, a line feed, an error's text, and a line feed.
const TEXT_ROOM: usize = LINE_LIMIT + 13;

#[derive(Drop)]
pub(crate) struct ShortText {
    bytes: [u8; TEXT_ROOM],
    end: usize,
}

impl Model for ShortText {
    ghost use Rattle.std.specs.Prelude.{List, ℕ, ◌≤◌, take};
    ghost use Rattle.rmt_wire.specs.declared.short_text.TheConstants.{TEXT_ROOM};

    ghost Value = { List ℕ };

    ghost view = { λ text. take text.end text.bytes };

    ghost invariant = { λ text. text.end ≤ TEXT_ROOM };
}

impl ShortText {
    pub(crate) fn new() -> Self
        ensures { result ≡ [] }
    {
        ShortText {
            bytes: [0; TEXT_ROOM],
            end: 0,
        }
    }

    pub(crate) fn as_slice(&self) -> &[u8]
        ensures { result.now ≡ self.now }
    {
        &self.bytes[..self.end]
    }

    pub(crate) fn push_byte(&mut self, byte: u8)
        requires { length self.old < TEXT_ROOM }
        ensures { self.new ≡ self.old ++ byte ∷ [] }
    {
        self.bytes[self.end] = byte;
        self.end += 1;
    }

    pub(crate) fn push_slice(&mut self, text: &[u8])
        requires { length self.old + length text.now ≤ TEXT_ROOM }
        ensures { self.new ≡ self.old ++ text.now }
    {
        let end = self.end + text.len();
        self.bytes[self.end..end].copy_from_slice(text);
        self.end = end;
    }
}

#[tactic(auto, using(crate::proofs::Spelling::short_heads))]
pub(crate) fn numbered(letter: u8, number: usize) -> ShortText
    requires { number ≤ NUMBER_LIMIT }
    ensures text { result ≡ letter ∷ (decimal number ++ line_feed ∷ []) }
    ensures short { length result ≤ 12 }
{
    let mut digits = Buffer::new();
    let mut line = ShortText::new();
    line.push_byte(letter);
    line.push_slice(digits.format(number).as_bytes());
    line.push_byte(b'\n');
    line
}

#[tactic(auto, using(crate::proofs::Spelling::short_heads))]
pub(crate) fn push_number(line: &mut ShortText, number: u32)
    requires limit { number ≤ NUMBER_LIMIT }
    requires room { length line.old + 11 ≤ LINE_LIMIT + 13 }
    ensures text { line.new ≡ line.old ++ (decimal number ++ line_feed ∷ []) }
    ensures short { length line.new ≤ length line.old + 11 }
{
    let mut digits = Buffer::new();
    line.push_slice(digits.format(number as usize).as_bytes());
    line.push_byte(b'\n');
}
