//! Cutting a text at a byte.
ghost use Rattle.std.specs.Prelude.{◌<◌, ◌+◌, length};
ghost use Rattle.rsim_schedule.specs.Cut.{IsCut, left_in};

use rmt_wire::find_byte;

/// Returns the text before the first `byte` and the text after it. The second is `None` if `byte`
/// does not occur.
pub(crate) fn cut(text: &[u8], byte: u8) -> (&[u8], Option<&[u8]>)
    ensures cut { IsCut byte text.now result.0.now result.1 }
    ensures shorter { left_in result.1 < length text.now + 1 }
{
    match find_byte(text, byte) {
        Some(at) => (&text[..at], Some(&text[at + 1..])),
        None => (text, None),
    }
}
