//! Names of drives and of reels.

use crate::line_fields::LineFields;
use rmt_wire::argument::is_device;
use std::alloc::{AllocError, Global};

/// The longest name of a reel, in bytes.
const NAME_LIMIT: usize = 32;

/// Whether a field is a device of a schedule: ASCII, and a name that an open request can carry (1
/// to 255 bytes, no line feed).
pub(crate) fn is_ascii_device(field: &[u8]) -> bool {
    is_device(field) && field.is_ascii()
}

/// Whether a field is the name of a reel: 1 to 32 bytes, each printable ASCII and not a space.
fn is_reel(field: &[u8]) -> bool {
    !field.is_empty()
        && field.len() <= NAME_LIMIT
        && field.iter().all(|byte| byte.is_ascii_graphic())
}

/// The names of reels, or none.
#[derive(Clone, Copy)]
pub(crate) struct Names<'a> {
    text: Option<&'a [u8]>,
}

impl<'a> Names<'a> {
    /// Reads names of reels from the fields of a text. Returns `None` if a field is not the name of
    /// a reel.
    pub(crate) fn new(text: Option<&'a [u8]>) -> Option<Names<'a>> {
        let mut fields = LineFields::new(text);
        while let Some(field) = fields.field() {
            if !is_reel(field) {
                return None;
            }
        }
        Some(Names { text })
    }

    /// Returns the names as a list.
    pub(crate) fn list(&self, alloc: Global) -> Result<Vec<&'a [u8]>, AllocError> {
        let mut list = Vec::new(alloc);
        push_fields(&mut list, LineFields::new(self.text))?;
        Ok(list)
    }
}

fn push_fields<'a>(list: &mut Vec<&'a [u8]>, mut fields: LineFields<'a>) -> Result<(), AllocError> {
    while let Some(field) = fields.field() {
        list.push(field)?;
    }
    Ok(())
}
