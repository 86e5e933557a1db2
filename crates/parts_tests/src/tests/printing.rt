//! Text from outside, as it is printed, against values worked out by hand.

use console::{PlainBytes, PlainLines, plain, plain_char, plain_line_char};
use std::alloc::AllocError;

/// Characters, and whether each is a control character. The table has the ends of both Unicode
/// ranges, and their neighbors.
static LETTERS: [(char, bool); 16] = [
    ('\0', true),
    ('\t', true),
    ('\n', true),
    ('\u{1b}', true),
    ('\u{1f}', true),
    (' ', false),
    ('?', false),
    ('~', false),
    ('\u{7f}', true),
    ('\u{80}', true),
    ('\u{9b}', true),
    ('\u{9f}', true),
    ('\u{a0}', false),
    ('\u{e4}', false),
    ('\u{2028}', false),
    ('\u{fffd}', false),
];

#[test]
fn control_characters_are_marked(rt: HostRuntime) {
    for (at, (letter, is_control)) in LETTERS.iter().enumerate() {
        let wanted = if *is_control { '?' } else { *letter };
        let in_lines = if *letter == '\n' { '\n' } else { wanted };
        let right = plain_char(*letter) == wanted && plain_line_char(*letter) == in_lines;
        super::check_row(&rt, at, right);
    }
}

/// Bytes, and what is printed of them. One `?` is printed for each longest sequence that could
/// begin a character (Unicode, chapter 3, "U+FFFD Substitution of Maximal Subparts").
static BYTES: [(&[u8], &str); 12] = [
    (b"", ""),
    (b"/dev/st0", "/dev/st0"),
    (b"\xef\xbf\xbd?", "\u{fffd}?"),
    (b"a\x1b[2Jb\n", "a?[2Jb?"),
    (b"\xc2\x9b2J\x9b2J", "?2J?2J"),
    (b"\xff", "?"),
    (b"\xc0\xaf", "??"),
    (b"\xed\xa0\x80", "???"),
    (b"\xf4\x90\x80\x80", "????"),
    (b"a\xe2\x82b", "a?b"),
    (b"\xf0\x9f\x93\xbc\xf0\x9f\x93", "\u{1f4fc}?"),
    (b"\xe2\x82\xac\xe2\x82", "\u{20ac}?"),
];

#[test]
fn bytes_are_printed_plain(rt: HostRuntime) -> Result<(), AllocError> {
    for (at, (bytes, wanted)) in BYTES.iter().enumerate() {
        let bytes = PlainBytes(bytes);
        let text = format!(in rt.alloc(); "{bytes}")?;
        super::check_row(&rt, at, text.as_str() == *wanted);
    }
    Ok(())
}

#[test]
fn texts_are_printed_plain(rt: HostRuntime) -> Result<(), AllocError> {
    let ugly = "a\u{1b}b\u{9b}c\r\nd\u{fffd}";
    let name = plain(ugly);
    let lines = PlainLines(ugly);
    let text = format!(in rt.alloc(); "{name}|{lines}")?;
    assert!(rt; text.as_str() == "a?b?c??d\u{fffd}|a?b?c?\nd\u{fffd}");
    Ok(())
}
