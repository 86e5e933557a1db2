//! Writes the text of a checkpoint.
ghost use Rattle.std.specs.Prelude.{◌≡◌, ◌++◌, [], ◌∷◌, OnOk, OnErr, length, map, take};
ghost use Rattle.rmt_wire.specs.Number.{line_feed};
ghost use Rattle.dump_run.specs.Checkpoint.{checkpoint_text, count_line, joined, run_lines};

use crate::lines::TextLines;
use crate::{Run, VolumeCount};
use std::alloc::AllocError;

fn run_text(run: &Run) -> TextLines
    ensures { result ≡ joined (run_lines run.now) }
{
    let mut lines = TextLines::new();
    lines.push(b"rdump 1\n");
    lines.push_line("device", run.device());
    lines.push_line("fs", run.name().as_bytes());
    lines.push_number("level", u64::from(run.level()));
    lines.push_number("date", run.date());
    lines.push_number("since", run.since());
    lines.push_number("block", run.block_bytes() as u64);
    lines.push_number("blocks", u64::from(run.blocks()));
    lines
}

fn count_text(count: &VolumeCount) -> TextLines
    ensures { result ≡ count_line count.now ++ line_feed ∷ [] }
{
    let mut line = TextLines::new();
    line.push(b"counted ");
    line.push_digits(u64::from(count.volume));
    line.push(b" ");
    line.push_digits(u64::from(count.first));
    line.push(b" ");
    line.push_digits(u64::from(count.count));
    line.push(b"\n");
    line
}

/// If an allocation fails, part of the text may have been appended.
fn push_lines(run: &Run, counts: &[VolumeCount], out: &mut Vec<u8>) -> Result<(), AllocError>
    ensures appended { OnOk result (out.new.items ≡ out.old.items ++ checkpoint_text run.now counts.now) }
    ensures begun { take (length out.old.items) out.new.items ≡ out.old.items }
{
    out.extend_from_slice(run_text(run).as_slice())?;
    for count in counts {
        out.extend_from_slice(count_text(count).as_slice())?;
    }
    Ok(())
}

/// Appends the text of a checkpoint: the lines of the run, then a line for each count, in order.
/// rdump(5) describes the format.
///
/// Fails if an allocation fails. Nothing is appended then.
pub fn push_checkpoint(
    run: &Run,
    counts: &[VolumeCount],
    out: &mut Vec<u8>,
) -> Result<(), AllocError>
    ensures appended { OnOk result (out.new.items ≡ out.old.items ++ checkpoint_text run.now counts.now) }
    ensures unchanged { OnErr result (out.new.items ≡ out.old.items) }
{
    let before = out.len();
    let pushed = push_lines(run, counts, out);
    if pushed.is_err() {
        out.truncate(before);
    }
    pushed
}
