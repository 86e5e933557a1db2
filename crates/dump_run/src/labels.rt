//! Writes the label that begins a volume.

ghost use Rattle.std.specs.Prelude.{◌≡◌};
ghost use Rattle.dump_run.specs.Label as labels;
ghost use Rattle.dump_run.specs.Label.{label_lines};

use crate::Run;
use crate::lines::TextLines;

/// The size of a label in bytes.
pub const LABEL_BYTES: usize = 1024;

#[tactic(auto, using(std::proofs::Common::append_assoc))]
fn lines_of(run: &Run, volume: u32, first: u32) -> TextLines
    ensures { result ≡ label_lines run.now volume first }
{
    let mut lines = TextLines::new();
    lines.push_line("name", run.name().as_bytes());
    lines.push_number("level", u64::from(run.level()));
    lines.push_number("date", run.date());
    lines.push_number("since", run.since());
    lines.push_number("volume", u64::from(volume));
    lines.push_number("first", u64::from(first));
    lines
}

/// Returns the label of the run's volume `volume`, which begins at block `first`: six lines, then
/// zero bytes.
///
/// `volume` is counted from 1 and `first` from 0. It allocates nothing.
pub fn label(run: &Run, volume: u32, first: u32) -> [u8; LABEL_BYTES]
    ensures { result ≡ labels.label run.now volume first }
{
    lines_of(run, volume, first).into_bytes()
}
