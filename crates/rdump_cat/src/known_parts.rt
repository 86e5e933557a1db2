//! The parts of a dump that a catalog has.
ghost use Rattle.std.specs.Prelude.{IfErr, IfOk};
ghost use Rattle.rdump_cat.specs.KnownDump.{ArePartsOf, IsNoDump};

use crate::NotKnown;
use catalog::Catalog;
use dump_run::DumpId;
use restore::Wanted;

/// Returns what `restore_partial` has to restore: the volumes of this dump whose sums are equal to
/// those of the catalog. The length is that with which the dump began.
///
/// Fails with `NoDump` if no line of the catalog says that the dump began.
pub fn parts_of<'a>(catalog: &'a Catalog, id: &'a DumpId) -> Result<Wanted<'a>, NotKnown>
    ensures parts { IfOk result (λ wanted. ArePartsOf catalog.now id.now wanted) }
    ensures refused { IfErr result (IsNoDump catalog.now id.now) }
{
    match catalog.run(id) {
        Some(run) => Ok(Wanted {
            name: Some(id.name()),
            level: Some(id.level()),
            date: Some(id.date()),
            length: run.begun.bytes(),
            volumes: None,
            lines: Some(catalog),
        }),
        None => Err(NotKnown::NoDump),
    }
}
