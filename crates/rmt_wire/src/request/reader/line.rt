//! Reads the line of a write.

ghost use Rattle.std.specs.Prelude.{◌≡◌, ◌≤◌, length, IfSome};
ghost use Rattle.rmt_wire.specs.RequestKept as spec;

use crate::limits::RECORD_LIMIT;
use crate::number::{Place, number_front};

#[tactic(auto, unfolding(crate::specs::RequestKept::write_line))]
fn write_line(bytes: &[u8]) -> Option<(usize, u32)>
    ensures value { result ≡ spec.write_line bytes.now }
    ensures within { IfSome result (λ line. line.0 ≤ length bytes.now) }
{
    let [b'W', rest @ ..] = bytes else {
        return None;
    };
    match number_front(rest, Place::Line) {
        Ok(Some((count, digits))) => Some((digits + 2, count)),
        _ => None,
    }
}

/// Like `write_line`, but does not read a known line again.
pub fn line_of(known: Option<(usize, u32)>, unread: &[u8]) -> Option<(usize, u32)>
    requires { spec.IsKnown known unread.now }
    ensures value { result ≡ spec.write_line unread.now }
    ensures within { IfSome result (λ line. line.0 ≤ length unread.now) }
{
    if known.is_some() {
        return known;
    }
    write_line(unread)
}

pub fn dropped_line(line: Option<(usize, u32)>) -> Option<(usize, u32)>
    ensures { result ≡ spec.if_dropped line }
{
    match line {
        Some((len, count)) if count as usize > RECORD_LIMIT => Some((len, count)),
        _ => None,
    }
}
