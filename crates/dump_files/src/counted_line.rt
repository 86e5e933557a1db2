//! The lines of a dump in a catalog.
ghost use Rattle.std.specs.Prelude.{◌≡◌, ◌↔◌, ℕ, List, IfSome, IsTrue, length};
ghost use Rattle.dump_run.specs.Run.{id_of_run};
ghost use Rattle.volume_check.specs.Volume.{volume_sum};
ghost use Rattle.catalog.specs.DumpLines.{plain_begun, plain_finished};
ghost use Rattle.dump_files.specs.Counted as spec;
ghost use Rattle.dump_files.specs.Counted.{HasCountIn, HasCountLine, IsCountLine, IsCovered};

use catalog::{BegunLine, Catalog, CatalogRun, FinishedLine, SumLine};
use dump_client::{Blocks, Client, Run, VolumeCount};
use dump_run::VolumeLabel;
use volume_check::Summed;

/// Returns the line with which the client's run begins. `bytes` is the length of the payload.
pub fn begun_line_of<B: Blocks>(client: &Client<B>, bytes: u64) -> BegunLine
    ensures { result ≡ plain_begun (id_of_run client.now.at.run) bytes }
{
    BegunLine::new(client.run().id().copy(), bytes)
}

/// Returns the line of a counted volume of the client's run, or None if the sum is not known. It is
/// known only if the source sums, and while the volume is the last one that the client has begun.
pub fn sum_line_of<B: Blocks>(client: &Client<Summed<B>>, count: VolumeCount) -> Option<SumLine>
    ensures line { IfSome result (IsCountLine client.now.at.run count) }
    ensures sum { IfSome result (λ line. (payload : List (List ℕ)) → B.holds client.now.source payload →
        line.sum ≡ volume_sum client.now.at.run payload count.volume count.first count.count) }
{
    let run = client.run();
    let sum = client.source().sum(run, count)?;
    let label = VolumeLabel::new(
        run.name(),
        run.level(),
        run.date(),
        run.since(),
        count.volume,
        count.first,
    )?;
    let block_bytes = block_size(run, count);
    SumLine::new(sum, label, count.count, block_bytes)
}

/// Returns the line for the client's run once it is finished. `bytes` is the length of the payload.
/// Returns None if the client has counted no volume, or more volumes than a run can have.
pub fn finished_line_of<B: Blocks>(client: &Client<B>, bytes: u64) -> Option<FinishedLine>
    ensures { IfSome result (λ f. f ≡
        plain_finished (id_of_run client.now.at.run) (length client.now.at.counts) client.now.at.run.blocks client.now.at.run.block_bytes bytes) }
{
    let run = client.run();
    let volumes = u32::try_from(client.counted().len()).ok()?;
    let block_bytes = run.block_bytes() as u32;
    FinishedLine::new(run.id().copy(), volumes, run.blocks(), block_bytes, bytes)
}

/// Returns whether a line in force has the label of a counted volume of the run, the number of its
/// blocks, and their size (0 if it has none).
pub fn has_count(catalog: &Catalog, run: &Run, count: VolumeCount) -> bool
    ensures { IsTrue result ↔ HasCountLine catalog.now run.now count }
{
    match catalog.run(run.id()) {
        Some(lately) => has_count_in(&lately, run, count),
        None => false,
    }
}

fn has_count_in(lately: &CatalogRun<'_>, run: &Run, count: VolumeCount) -> bool
    ensures { IsTrue result ↔ HasCountIn lately.now.after.now lately.now.begun.now.id run.now count }
{
    match lately.volume(count.volume) {
        Some(line) => is_count_line(line, run, count),
        None => false,
    }
}

pub(crate) fn covers(catalog: &Catalog, run: &Run, counts: &[VolumeCount]) -> bool
    ensures { IsTrue result ↔ IsCovered catalog.now run.now counts.now }
{
    let mut at = counts.len();
    while at > 0 {
        at -= 1;
        if !has_count(catalog, run, counts[at]) {
            return false;
        }
    }
    true
}

fn is_count_line(line: &SumLine, run: &Run, count: VolumeCount) -> bool
    ensures { IsTrue result ↔ IsCountLine run.now count line.now }
{
    let label = line.label();
    label.id().is_same(run.id())
        && label.volume() == count.volume
        && label.first() == count.first
        && line.blocks() == count.count
        && line.block_bytes() == block_size(run, count)
}

fn block_size(run: &Run, count: VolumeCount) -> u32
    ensures { result ≡ spec.block_size run.now count.count }
{
    if count.count == 0 {
        return 0;
    }
    run.block_bytes() as u32
}
