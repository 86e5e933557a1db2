//! Splits a text at a byte.
ghost use Rattle.dump_run.specs.CheckpointParts.{IsCut};

/// Returns the text before the first `byte` and the text after it, or None.
pub(super) fn cut(text: &[u8], byte: u8) -> Option<(&[u8], &[u8])>
    ensures { IsCut byte text.now result }
{
    for at in 0..text.len() {
        if text[at] == byte {
            return Some((&text[..at], &text[at + 1..]));
        }
    }
    None
}
