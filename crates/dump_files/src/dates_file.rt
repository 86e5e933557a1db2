//! The output of `rdump dates`.

ghost use Rattle.std.specs.Prelude.{◌≡◌, ◌+◌, ◌++◌, ◌≤◌, IfErr, IfOk, length, decimal};
ghost use Rattle.dumpdates.specs.Lines.{HasDatesFault};
ghost use Rattle.dump_files.specs.Dates.{IsAnswerText, IsDates, IsStatusPrinted, bytes_of, dates_fault_text, plain_asked};

use arrayvec::ArrayString;
use console::ExitStatus;
use dumpdates::{Dates, DatesFault};
use itoa::Buffer;
use rmt_wire::{Counted, print_text};
use std::alloc::Global;
use std::io::Write;

const LINE_ROOM: usize = 64;

/// Prints the output of `rdump dates` on `out`, for the dumpdates file (see dump(8)) with the bytes
/// `file`.
///
/// Without `asked`, it prints the entries again, as `Dates::text` writes them. For a name and a
/// level, it prints a line with the base date of that dump, in seconds since 1970, UTC: the date of
/// the latest dump with the name and a lower level, or 0 if there is none.
///
/// If `file` is not a dumpdates file, it prints the line `line 3: bad line` or `line 3: bad date`,
/// with the number of the first bad line, counted from 1. If an allocation fails, it prints the
/// line `out of memory`.
///
/// Returns `Success` if the answer was printed, else `StartupError`: the file is bad, an allocation
/// fails, or a write fails. After a failed write, it writes nothing more.
pub fn dates<W: Write>(
    alloc: Global,
    file: &[u8],
    asked: Option<(&str, u8)>,
    out: &mut Counted<W>,
) -> ExitStatus
    ensures { IsDates W.contents file.now (plain_asked asked.entry) out.old out.new result }
{
    match answer(alloc, file, asked) {
        Ok(text) => print(out, text.as_bytes(), ExitStatus::Success),
        Err(fault) => print(out, fault_line(fault).as_bytes(), ExitStatus::StartupError),
    }
}

#[derive(Drop)]
enum Text {
    Entries(Vec<u8>),
    Line(ArrayString<LINE_ROOM>),
}

impl Text {
    fn as_bytes(&self) -> &[u8]
        ensures { result.now ≡ bytes_of self.now }
    {
        match self {
            Text::Entries(text) => text,
            Text::Line(line) => line.as_bytes(),
        }
    }
}

#[tactic(auto, using(crate::proofs::Reached::memory_wanted))]
fn answer(alloc: Global, file: &[u8], asked: Option<(&str, u8)>) -> Result<Text, DatesFault>
    ensures answered { IfOk result (λ text. IsAnswerText file.now (plain_asked asked.entry) (bytes_of text)) }
    ensures fault { IfErr result (HasDatesFault file.now) }
{
    let dates = Dates::read(alloc, file)?;
    match asked {
        None => Ok(Text::Entries(dates.text()?)),
        Some((name, level)) => Ok(Text::Line(numbered("", dates.base(name, level), "\n"))),
    }
}

fn fault_line(fault: DatesFault) -> ArrayString<LINE_ROOM>
    ensures { result.bytes ≡ dates_fault_text fault }
{
    match fault {
        DatesFault::BadLine(number) => numbered("line ", number as u64, ": bad line\n"),
        DatesFault::BadDate(number) => numbered("line ", number as u64, ": bad date\n"),
        DatesFault::OutOfMemory => ArrayString::from("out of memory\n").unwrap(),
    }
}

fn numbered(before: &str, number: u64, after: &str) -> ArrayString<LINE_ROOM>
    requires { length before.now + length after.now ≤ 24 }
    ensures { result.bytes ≡ before.now ++ decimal number ++ after.now }
{
    let mut digits = Buffer::new();
    let mut line = ArrayString::new();
    line.push_str(before);
    line.push_str(digits.format(number));
    line.push_str(after);
    line
}

fn print<W: Write>(out: &mut Counted<W>, text: &[u8], status: ExitStatus) -> ExitStatus
    ensures { IsStatusPrinted W.contents text.now status out.old out.new result }
{
    if print_text(out, text) {
        status
    } else {
        ExitStatus::StartupError
    }
}
