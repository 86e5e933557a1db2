//! Prints failed attempts, and why a schedule ends early.
ghost use Rattle.std.specs.Prelude.{◌≡◌, ◌≤◌, ◌++◌, Bool, length, codes, decimal, if◌then◌else◌, IfErr};
ghost use Rattle.console.specs.declared.status.ExitStatus.TheVariants.{Abnormal};
ghost use Rattle.rdump_net.specs.Lines.{failure_line as line_of};
ghost use Rattle.rmt_wire.specs.Print.{IsPrinted};
ghost use Rattle.rsim_schedule.specs.Playing.{is_whole};
ghost use Rattle.rsim_schedule.specs.Ending.{IsHaltPrinted};
ghost use Rattle.rsim_schedule.specs.declared.halt.Halt.TheVariants.{StreamFailed};

use crate::halt::Halt;
use arrayvec::ArrayString;
use console::ExitStatus;
use dump_client::AttemptFault;
use itoa::Buffer;
use rdump_net::{LINE_ROOM, failure_line};
use rmt_wire::{Counted, print_text};
use std::io::Write;

/// Prints the line of a failed attempt.
pub(crate) fn print_failure<W: Write>(
    volume: u32,
    fault: AttemptFault,
    out: &mut Counted<W>,
) -> Result<(), Halt>
    ensures { IsPrinted W.contents (line_of volume fault) out.old out.new (is_whole result) }
{
    print_all(failure_line(volume, fault).as_bytes(), out)
}

/// Prints a whole text. Fails with `StreamFailed` if the write fails.
pub(crate) fn print_all<W: Write>(text: &[u8], out: &mut Counted<W>) -> Result<(), Halt>
    ensures printed { IsPrinted W.contents text.now out.old out.new (is_whole result) }
    ensures only { IfErr result (λ halt. halt ≡ StreamFailed) }
{
    if print_text(out, text) {
        return Ok(());
    }
    Err(Halt::StreamFailed)
}

/// Prints why the schedule ends at line `number`, and returns the exit status. After a failed write
/// it prints nothing.
pub(crate) fn print_halt<W: Write>(number: usize, halt: Halt, out: &mut Counted<W>) -> ExitStatus
    ensures { IsHaltPrinted W.contents number halt out.old result out.new }
{
    match halt {
        Halt::BadLine => print_last(number, ": bad line\n", ExitStatus::StartupError, out),
        Halt::NotPossible => print_last(number, ": not possible\n", ExitStatus::StartupError, out),
        Halt::OutOfMemory => print_last(number, ": out of memory\n", ExitStatus::Abnormal, out),
        Halt::StreamFailed => ExitStatus::Abnormal,
    }
}

/// Prints the last line of a schedule that ends early. Returns `status`, or `Abnormal` if the write
/// fails.
fn print_last<W: Write>(
    number: usize,
    what: &str,
    status: ExitStatus,
    out: &mut Counted<W>,
) -> ExitStatus
    requires { length what.now ≤ 16 }
    ensures { (whole : Bool) × IsPrinted W.contents (codes "line " ++ decimal number ++ what.now) out.old out.new whole
        × (result ≡ (if whole then status else Abnormal)) }
{
    let line = halt_text(number, what);
    if print_text(out, line.as_bytes()) {
        status
    } else {
        ExitStatus::Abnormal
    }
}

fn halt_text(number: usize, what: &str) -> ArrayString<LINE_ROOM>
    requires { length what.now ≤ 16 }
    ensures { result.bytes ≡ codes "line " ++ decimal number ++ what.now }
{
    let mut digits = Buffer::new();
    let mut line = ArrayString::new();
    line.push_str("line ");
    line.push_str(digits.format(number as u64));
    line.push_str(what);
    line
}
