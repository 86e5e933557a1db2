//! The dump of a catalog that is restored.
ghost use Rattle.std.specs.Prelude.{◌≡◌, IfErr, IfOk};
ghost use Rattle.rdump_cat.specs.KnownDump.{IsFinishedIn, IsNotKnown, wanted_by};

use catalog::{Catalog, FinishedLine};
use dump_run::DumpId;
use restore::Wanted;

/// Why a dump cannot be restored with a catalog.
#[derive(Clone, Copy, Debug, PartialEq, Eq)]
pub enum NotKnown {
    /// No line of the catalog says that the dump began.
    NoDump,
    /// The last line of the dump does not say that it is finished.
    NotFinished,
}

/// Returns the line of a catalog that says that a dump is finished. It is the last line of the
/// dump.
///
/// Fails with `NoDump` if no line says that the dump began. Fails with `NotFinished` if the last
/// line of the dump does not say that it is finished.
pub fn finished_line<'a>(catalog: &'a Catalog, id: &DumpId) -> Result<&'a FinishedLine, NotKnown>
    ensures finished { IfOk result (λ f. IsFinishedIn catalog.now id.now f.now) }
    ensures refused { IfErr result (IsNotKnown catalog.now id.now) }
{
    let Some(run) = catalog.run(id) else {
        return Err(NotKnown::NoDump);
    };
    match run.finished() {
        Some(finished) => Ok(finished),
        None => Err(NotKnown::NotFinished),
    }
}

/// Returns what `restore` has to restore: the volumes of this dump whose sums are equal to those of
/// the catalog, as many as the line of the finished dump says, and a payload of its length.
pub fn wanted_of<'a>(catalog: &'a Catalog, id: &'a DumpId, finished: &FinishedLine) -> Wanted<'a>
    ensures { result ≡ wanted_by catalog.now id.now finished.now }
{
    Wanted {
        name: Some(id.name()),
        level: Some(id.level()),
        date: Some(id.date()),
        length: finished.bytes(),
        volumes: Some(finished.volumes()),
        lines: Some(catalog),
    }
}
