//! Bytes that are safe to print.
ghost use Rattle.std.specs.Prelude.{◌≡◌, length, Some};
ghost use Rattle.std.specs.Fmt.{WritesOnOk};
ghost use Rattle.console.specs.Printing.{mark_of, plain_text, printable};

use crate::letter::plain_char;
use std::fmt::{self, Display, Formatter, Write};

/// Bytes from others, printed with `?` for each control character, also a line feed, and for each
/// byte sequence that is not UTF-8 (`utf8_chunks`). Printing allocates nothing.
#[derive(Clone, Copy)]
pub struct PlainBytes<'a>(pub &'a [u8]);

/// Wraps a text, to print it safely.
pub fn plain(text: &str) -> PlainBytes<'_>
    ensures { result.0.now ≡ text.now }
{
    PlainBytes(text.as_bytes())
}

impl Display for PlainBytes<'_> {
    // No clause says what is printed if printing fails.

    ghost output = { λ p. Some (printable p.0.now) };

    fn fmt<W: Write>(&self, f: &mut Formatter<W>) -> fmt::Result {
        write_bytes(self.0, f)
    }
}

fn write_bytes<W: Write>(bytes: &[u8], f: &mut Formatter<W>) -> fmt::Result
    ensures { WritesOnOk W.write_str_gives f.old result (printable bytes.now) f.new }
{
    let mut chunks = bytes.utf8_chunks();
    'chunks: while let Some(chunk) = chunks.next() {
        write_text(chunk.valid(), f)?;
        write_mark(chunk.invalid(), f)?;
    }
    Ok(())
}

fn write_text<W: Write>(text: &str, f: &mut Formatter<W>) -> fmt::Result
    ensures { WritesOnOk W.write_str_gives f.old result (plain_text text.now) f.new }
{
    for letter in text.chars() {
        f.write_char(plain_char(letter))?;
    }
    Ok(())
}

fn write_mark<W: Write>(bytes: &[u8], f: &mut Formatter<W>) -> fmt::Result
    ensures { WritesOnOk W.write_str_gives f.old result (mark_of (length bytes.now)) f.new }
{
    if bytes.is_empty() {
        return Ok(());
    }
    f.write_char('?')
}
