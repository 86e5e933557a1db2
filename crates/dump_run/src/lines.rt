//! Builds the lines of a short text, without allocating.

ghost use Rattle.std.specs.Prelude.{◌≡◌, ◌+◌, ◌-◌, ◌≤◌, ◌++◌, [], length, replicate, decimal};
ghost use Rattle.dump_run.specs.Label.{line_of, label_bytes};

use crate::labels::LABEL_BYTES;
use itoa::Buffer;
use std::marker::Model;

/// The greatest number in a line: twelve digits.
const LINE_NUMBER_LIMIT: u64 = 999_999_999_999;

// The lines of a text so far, with zero bytes up to `LABEL_BYTES` after them.
#[derive(Drop)]
pub(crate) struct TextLines {
    bytes: [u8; LABEL_BYTES],
    end: usize,
}

impl Model for TextLines {
    ghost use Rattle.std.specs.Prelude.{List, ℕ, ◌≡◌, ◌-◌, ◌≤◌, take, drop, replicate};
    ghost use Rattle.dump_run.specs.Label.{label_bytes};

    ghost Value = { List ℕ };

    ghost view = { λ l. take l.end l.bytes };

    ghost invariant = { λ l. (l.end ≤ label_bytes) × (drop l.end l.bytes ≡ replicate (label_bytes - l.end) 0) };
}

impl TextLines {
    pub(crate) fn new() -> TextLines
        ensures { result ≡ [] }
    {
        TextLines {
            bytes: [0; LABEL_BYTES],
            end: 0,
        }
    }

    pub(crate) fn push(&mut self, text: &[u8])
        requires { length self.old + length text.now ≤ label_bytes }
        ensures text { self.new ≡ self.old ++ text.now }
        ensures size { length self.new ≡ length self.old + length text.now }
    {
        let end = self.end + text.len();
        self.bytes[self.end..end].copy_from_slice(text);
        self.end = end;
    }

    #[tactic(auto, using(crate::proofs::LabelText::line_number_is_short))]
    pub(crate) fn push_digits(&mut self, number: u64)
        requires limit { number ≤ LINE_NUMBER_LIMIT }
        requires room { length self.old + 12 ≤ label_bytes }
        ensures digits { self.new ≡ self.old ++ decimal number }
        ensures short { length self.new ≤ length self.old + 12 }
    {
        let mut digits = Buffer::new();
        self.push(digits.format(number).as_bytes());
    }

    #[tactic(auto, using(std::proofs::Common::append_assoc))]
    pub(crate) fn push_line(&mut self, word: &str, text: &[u8])
        requires { length self.old + length word.now + length text.now + 2 ≤ label_bytes }
        ensures line { self.new ≡ self.old ++ line_of word.now text.now }
        ensures size { length self.new ≡ length self.old + length word.now + length text.now + 2 }
    {
        self.push(word.as_bytes());
        self.push(b" ");
        self.push(text);
        self.push(b"\n");
    }

    #[tactic(auto, using(crate::proofs::LabelText::line_number_is_short))]
    pub(crate) fn push_number(&mut self, word: &str, number: u64)
        requires limit { number ≤ LINE_NUMBER_LIMIT }
        requires room { length self.old + length word.now + 14 ≤ label_bytes }
        ensures line { self.new ≡ self.old ++ line_of word.now (decimal number) }
        ensures short { length self.new ≤ length self.old + length word.now + 14 }
    {
        let mut digits = Buffer::new();
        self.push_line(word, digits.format(number).as_bytes());
    }

    pub(crate) fn as_slice(&self) -> &[u8]
        ensures { result.now ≡ self.now }
    {
        &self.bytes[..self.end]
    }

    // Returns the lines, with zero bytes after them.
    pub(crate) fn into_bytes(self) -> [u8; LABEL_BYTES]
        ensures { result ≡ self ++ replicate (label_bytes - length self) 0 }
    {
        self.bytes
    }
}
