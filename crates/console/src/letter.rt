//! One character that is safe to print.
ghost use Rattle.std.specs.Prelude.{◌≡◌, false};
ghost use Rattle.std.specs.Char.{is_control};
ghost use Rattle.console.specs.Printing.{plain_char, plain_line_char};

/// Returns the character, or `?` in place of a control character (U+0000 to U+001F, U+007F to
/// U+009F).
pub fn plain_char(letter: char) -> char
    ensures value { result ≡ plain_char letter }
    ensures harmless { is_control result ≡ false }
    ensures kept { is_control letter ≡ false → result ≡ letter }
{
    if letter.is_control() { '?' } else { letter }
}

/// Like `plain_char`, but returns a line feed unchanged.
pub fn plain_line_char(letter: char) -> char
    ensures value { result ≡ plain_line_char letter }
{
    if letter == '\n' {
        letter
    } else {
        plain_char(letter)
    }
}
