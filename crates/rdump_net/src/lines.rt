//! The lines that a dump prints.
ghost use Rattle.std.specs.Prelude.{◌≡◌, ◌≤◌, ◌+◌, ◌++◌, length, decimal};
ghost use Rattle.rdump_net.specs.Lines.{count_line, count_lines, complete_text as complete, failure_line as line_of_failure, failure_lines, fault_text};
ghost use Rattle.rmt_wire.specs.Print.{IsPrinted};

use arrayvec::ArrayString;
use dump_client::{AttemptFault, VolumeCount};
use itoa::Buffer;
use rmt_wire::{Counted, print_text};
use std::io::Write;

/// The capacity of the buffer for a dump's lines, in bytes.
pub const LINE_ROOM: usize = 128;

pub(crate) const QUESTION: &str = "retry?\n";

pub(crate) fn print_counts<W: Write>(counts: &[VolumeCount], out: &mut Counted<W>) -> bool
    ensures { IsPrinted W.contents (count_lines counts.now) out.old out.new result }
{
    match counts.split_first() {
        Some((count, rest)) => print_count(*count, out) && print_counts(rest, out),
        None => true,
    }
}

fn print_count<W: Write>(count: VolumeCount, out: &mut Counted<W>) -> bool
    ensures { IsPrinted W.contents (count_line count) out.old out.new result }
{
    print_text(out, line_of(count).as_bytes())
}

fn line_of(count: VolumeCount) -> ArrayString<LINE_ROOM>
    ensures { result.bytes ≡ count_line count }
{
    let mut line = ArrayString::new();
    push_part(&mut line, "volume ", u64::from(count.volume));
    push_part(&mut line, ": ", u64::from(count.count));
    push_part(&mut line, " blocks from ", u64::from(count.first));
    line.push_str("\n");
    line
}

/// Returns the line of a failed attempt of this volume, for example `volume 1 failed: Refused 16`,
/// with a line feed.
///
/// The fault is given by its name, and after it the error number of a refusal or the number of a
/// counted volume. The line has at most 73 bytes.
pub fn failure_line(volume: u32, fault: AttemptFault) -> ArrayString<LINE_ROOM>
    ensures text { result.bytes ≡ line_of_failure volume fault }
    ensures short { length result.bytes ≤ 73 }
{
    let mut line = ArrayString::new();
    push_part(&mut line, "volume ", u64::from(volume));
    line.push_str(" failed: ");
    push_fault(&mut line, fault);
    line.push_str("\n");
    line
}

/// Returns `failure_line` and the question to the operator.
pub(crate) fn failure_text(volume: u32, fault: AttemptFault) -> ArrayString<LINE_ROOM>
    ensures { result.bytes ≡ failure_lines volume fault }
{
    let mut lines = failure_line(volume, fault);
    lines.push_str(QUESTION);
    lines
}

pub(crate) fn complete_text(volumes: usize, blocks: u32) -> ArrayString<LINE_ROOM>
    ensures { result.bytes ≡ complete volumes blocks }
{
    let mut line = ArrayString::new();
    push_part(&mut line, "dump complete: ", volumes as u64);
    push_part(&mut line, " volumes, ", u64::from(blocks));
    line.push_str(" blocks\n");
    line
}

/// Appends a text and then a number in decimal.
pub(crate) fn push_part(line: &mut ArrayString<LINE_ROOM>, text: &str, number: u64)
    requires { length line.old.bytes + length text.now + 20 ≤ LINE_ROOM }
    ensures appended { line.new.bytes ≡ line.old.bytes ++ text.now ++ decimal number }
    ensures short { length line.new.bytes ≤ length line.old.bytes + length text.now + 20 }
{
    let mut digits = Buffer::new();
    line.push_str(text);
    line.push_str(digits.format(number));
}

fn push_fault(line: &mut ArrayString<LINE_ROOM>, fault: AttemptFault)
    requires { length line.old.bytes + 36 ≤ LINE_ROOM }
    ensures appended { line.new.bytes ≡ line.old.bytes ++ fault_text fault }
    ensures short { length line.new.bytes ≤ length line.old.bytes + 36 }
{
    match fault {
        AttemptFault::Refused(number) => push_part(line, "Refused ", u64::from(number)),
        AttemptFault::Botched => line.push_str("Botched"),
        AttemptFault::ConnectionEnded => line.push_str("ConnectionEnded"),
        AttemptFault::ShortWrite => line.push_str("ShortWrite"),
        AttemptFault::ReelTooSmall => line.push_str("ReelTooSmall"),
        AttemptFault::SourceFault => line.push_str("SourceFault"),
        AttemptFault::OutOfMemory => line.push_str("OutOfMemory"),
        AttemptFault::CountedReel(volume) => push_part(line, "CountedReel ", u64::from(volume)),
    }
}
