//! Splits a line into its words. A word of a line is a row of bytes without spaces and tabs.

ghost use Rattle.std.specs.Prelude.{◌≡◌, ◌≤◌, length, option_map};
ghost use Rattle.std.specs.List.{prefix_len, position_or_len, list_all};
ghost use Rattle.dumpdates.specs.FoundLine.{plain_words};
ghost use Rattle.dumpdates.specs.Front as spec;
ghost use Rattle.dumpdates.specs.Line as line_spec;

/// The seven words of an entry's line. If a line has fewer, the last ones are empty.
#[derive(Clone, Copy)]
pub(crate) struct LineWords<'a> {
    pub(crate) name: &'a [u8],
    pub(crate) level: &'a [u8],
    pub(crate) weekday: &'a [u8],
    pub(crate) month: &'a [u8],
    pub(crate) day: &'a [u8],
    pub(crate) time: &'a [u8],
    pub(crate) year: &'a [u8],
}

/// Returns the words of a line, or None if it has more than seven.
#[tactic(auto, unfolding(crate::specs::Front::words_of))]
pub(crate) fn words_of(line: &[u8]) -> Option<LineWords<'_>>
    ensures { option_map plain_words result ≡ spec.words_of line.now }
{
    let (name, rest) = first_word(line);
    let (level, rest) = first_word(rest);
    let (weekday, rest) = first_word(rest);
    let (month, rest) = first_word(rest);
    let (day, rest) = first_word(rest);
    let (time, rest) = first_word(rest);
    let (year, rest) = first_word(rest);
    if !is_blank(rest) {
        return None;
    }
    Some(LineWords {
        name,
        level,
        weekday,
        month,
        day,
        time,
        year,
    })
}

pub(crate) fn is_blank(bytes: &[u8]) -> bool
    ensures { result ≡ list_all line_spec.is_space bytes.now }
{
    bytes.iter().all(|b| is_space(*b))
}

fn is_space(byte: u8) -> bool
    ensures { result ≡ line_spec.is_space byte }
{
    byte == b' ' || byte == b'\t'
}

/// Returns the first word, and the bytes after it. The word is empty if there is none.
#[tactic(auto, unfolding(crate::specs::Front::first_word, crate::specs::Front::after_word, crate::specs::Front::after_spaces))]
fn first_word(bytes: &[u8]) -> (&[u8], &[u8])
    ensures word { result.0.now ≡ spec.first_word bytes.now }
    ensures rest { result.1.now ≡ spec.after_word bytes.now }
{
    let text = &bytes[space_len(bytes)..];
    text.split_at(word_len(text))
}

fn space_len(bytes: &[u8]) -> usize
    ensures value { result ≡ prefix_len line_spec.is_space bytes.now }
    ensures within { result ≤ length bytes.now }
{
    for (at, byte) in bytes.iter().enumerate() {
        if !is_space(*byte) {
            return at;
        }
    }
    bytes.len()
}

fn word_len(bytes: &[u8]) -> usize
    ensures value { result ≡ position_or_len line_spec.is_space bytes.now }
    ensures within { result ≤ length bytes.now }
{
    for (at, byte) in bytes.iter().enumerate() {
        if is_space(*byte) {
            return at;
        }
    }
    bytes.len()
}
