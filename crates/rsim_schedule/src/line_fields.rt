//! The fields of a line.
ghost use Rattle.std.specs.Prelude.{◌<◌, OnSome};
ghost use Rattle.rsim_schedule.specs.Cut.{left_in};

use crate::byte_count::ByteCount;
use crate::cut::cut;
use crate::hex_text::HexText;
use crate::names::{Names, is_ascii_device};
use rmt_wire::argument::number_of;

/// The fields of a line that are still to be read. One space separates them.
#[derive(Clone, Copy)]
pub(crate) struct LineFields<'a> {
    // The rest of the line; `None` after its last field.
    pub(crate) rest: Option<&'a [u8]>,
}

impl<'a> LineFields<'a> {
    /// Returns the fields of a text. `None` has no fields.
    pub(crate) fn new(rest: Option<&'a [u8]>) -> LineFields<'a> {
        LineFields { rest }
    }

    /// Returns the next field, or `None` after the last.
    pub(crate) fn field(&mut self) -> Option<&'a [u8]>
        ensures { OnSome result (left_in self.new.rest < left_in self.old.rest) }
    {
        let rest = self.rest?;
        let (field, behind) = cut(rest, b' ');
        self.rest = behind;
        Some(field)
    }

    /// Returns the next field, if it is UTF-8 text.
    pub(crate) fn text_field(&mut self) -> Option<&'a str> {
        str::from_utf8(self.field()?).ok()
    }

    /// Whether the last field was read.
    pub(crate) fn is_over(&self) -> bool {
        self.rest.is_none()
    }

    /// Returns the next field, if it is a number: digits only, at most 9223372036854775807.
    pub(crate) fn number(&mut self) -> Option<u64> {
        number_of(self.text_field()?)
    }

    /// Returns the next field, if it is the number of a connection.
    pub(crate) fn connection(&mut self) -> Option<usize> {
        Some(self.number()? as usize)
    }

    /// Returns the next field, if it is a device of a schedule.
    pub(crate) fn device(&mut self) -> Option<&'a [u8]> {
        let field = self.field()?;
        if is_ascii_device(field) {
            Some(field)
        } else {
            None
        }
    }

    /// Returns the next field, if it is a number or `all`.
    pub(crate) fn count(&mut self) -> Option<ByteCount> {
        match self.text_field()? {
            "all" => Some(ByteCount::All),
            digits => Some(ByteCount::Exactly(number_of(digits)? as usize)),
        }
    }

    /// Returns the next field, if it is bytes in hexadecimal.
    pub(crate) fn hex(&mut self) -> Option<HexText<'a>> {
        HexText::new(self.field()?)
    }

    /// Returns all remaining fields, if each is the name of a reel.
    pub(crate) fn names(&mut self) -> Option<Names<'a>> {
        Names::new(self.rest.take())
    }
}
