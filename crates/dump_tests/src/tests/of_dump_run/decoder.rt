//! A plain decoder of the text of a checkpoint, line by line. It uses nothing of the crate.

/// The verdict on a text.
#[derive(Clone, Copy, Debug, PartialEq, Eq)]
pub(crate) enum Verdict {
    /// All lines are well formed, and the counts are in order.
    Spells,
    /// The first line that is malformed or missing.
    BadLine(usize),
    /// The line of the first count that is not in order.
    NotInOrder(usize),
}

/// More lines than any text of these tests has.
const LINES: usize = 20;

/// Returns the text before the first `byte`, and the text after it.
fn cut(text: &[u8], byte: u8) -> Option<(&[u8], &[u8])> {
    for at in 0..text.len() {
        if text[at] == byte {
            return Some((&text[..at], &text[at + 1..]));
        }
    }
    None
}

/// Reads a number: one to twelve digits, without a leading zero.
fn value_of(text: &[u8]) -> Option<u64> {
    if text.is_empty() || text.len() > 12 || (text.len() > 1 && text[0] == b'0') {
        return None;
    }
    let mut value: u64 = 0;
    for byte in text {
        if !byte.is_ascii_digit() {
            return None;
        }
        let digit = u64::from(byte.saturating_sub(b'0'));
        value = value.saturating_mul(10).saturating_add(digit);
    }
    Some(value)
}

/// Reads the number after `word`.
fn number_in(line: &[u8], word: &[u8]) -> Option<u64> {
    value_of(line.strip_prefix(word)?)
}

/// Whether a number from `least` to `most` follows `word`.
fn has_number(line: &[u8], word: &[u8], least: u64, most: u64) -> bool {
    match number_in(line, word) {
        Some(value) => least <= value && value <= most,
        None => false,
    }
}

/// Whether 1 to 255 bytes follow `word`.
fn has_text(line: &[u8], word: &[u8]) -> bool {
    match line.strip_prefix(word) {
        Some(text) => !text.is_empty() && text.len() <= 255,
        None => false,
    }
}

/// Whether each byte is printable ASCII and not a space.
fn is_printed(text: &[u8]) -> bool {
    for byte in text {
        if *byte < 33 || *byte > 126 {
            return false;
        }
    }
    true
}

/// Whether the line is `fs ` and a name.
fn has_name(line: &[u8]) -> bool {
    match line.strip_prefix(b"fs ") {
        Some(name) => has_text(line, b"fs ") && is_printed(name),
        None => false,
    }
}

/// Reads the three numbers of a count: its volume, its first block, and its number of blocks.
fn parse_count(line: &[u8]) -> Option<(u64, u64, u64)> {
    let text = line.strip_prefix(b"counted ")?;
    let (volume, more) = cut(text, b' ')?;
    let (first, count) = cut(more, b' ')?;
    Some((value_of(volume)?, value_of(first)?, value_of(count)?))
}

/// Whether a line is a well-formed count.
fn is_count(line: &[u8]) -> bool {
    match parse_count(line) {
        Some((volume, first, count)) => {
            volume <= 2147483647 && first <= 2147483647 && count <= 2147483647
        }
        None => false,
    }
}

/// Whether line `number`, counted from 1, is well formed.
fn is_good(number: usize, line: &[u8]) -> bool {
    match number {
        1 => line == b"rdump 1".as_slice(),
        2 => has_text(line, b"device "),
        3 => has_name(line),
        4 => has_number(line, b"level ", 0, 9),
        5 => has_number(line, b"date ", 0, 253402300799),
        6 => has_number(line, b"since ", 0, 253402300799),
        7 => has_number(line, b"block ", 1, 262144),
        8 => has_number(line, b"blocks ", 0, 2147483647),
        _ => is_count(line),
    }
}

/// Returns the number of the first line that is malformed or missing.
fn bad_line(bytes: &[u8]) -> Option<usize> {
    let mut rest = bytes;
    for number in 1..LINES {
        if rest.is_empty() && number > 8 {
            return None;
        }
        match cut(rest, b'\n') {
            Some((line, more)) if is_good(number, line) => rest = more,
            _ => return Some(number),
        }
    }
    None
}

/// Whether a count is of this volume from block `first` on, and fits a run of `blocks` blocks.
fn is_due(count: (u64, u64, u64), volume: u64, first: u64, blocks: u64) -> bool {
    let end = first.saturating_add(count.2);
    count.0 == volume
        && count.1 == first
        && end <= blocks
        && (count.2 > 0 || blocks == 0)
        && (volume == 1 || first < blocks)
}

/// Returns the line of the first count that is not in order. All lines must be well formed.
fn misplaced_line(bytes: &[u8]) -> Option<usize> {
    let mut rest = bytes;
    let mut blocks = 0;
    let mut next = (1, 0);
    for number in 1..LINES {
        let (line, more) = cut(rest, b'\n')?;
        if number == 8 {
            blocks = number_in(line, b"blocks ")?;
        }
        if number > 8 {
            let count = parse_count(line)?;
            if !is_due(count, next.0, next.1, blocks) {
                return Some(number);
            }
            next = (count.0.saturating_add(1), count.1.saturating_add(count.2));
        }
        rest = more;
    }
    None
}

/// Returns the verdict on a text.
pub(crate) fn verdict_of(bytes: &[u8]) -> Verdict {
    match (bad_line(bytes), misplaced_line(bytes)) {
        (Some(number), _) => Verdict::BadLine(number),
        (None, Some(number)) => Verdict::NotInOrder(number),
        (None, None) => Verdict::Spells,
    }
}
