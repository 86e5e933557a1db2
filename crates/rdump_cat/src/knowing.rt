//! The catalogs that have lines of a dump.
ghost use Rattle.std.specs.Prelude.{◌↔◌, IfErr, IfOk, IsTrue};
ghost use Rattle.rdump_cat.specs.Knowing.{AreTwo, IsFirst, IsOnly, Knows};

use catalog::Catalog;
use dump_run::DumpId;

/// Two catalogs have lines of one dump.
#[derive(Clone, Copy, Debug, PartialEq, Eq)]
pub struct KnownTwice {
    /// The index of one of them.
    pub first: usize,
    /// The index of the other one, which follows it.
    pub second: usize,
}

/// Returns the index of the catalog that has lines of a dump, or None if no catalog has one.
///
/// Fails if two catalogs have lines of the dump.
pub fn catalog_of(catalogs: &[Catalog], id: &DumpId) -> Result<Option<usize>, KnownTwice>
    ensures known { IfOk result (IsOnly catalogs.now id.now) }
    ensures refused { IfErr result (AreTwo catalogs.now id.now) }
{
    let Some(first) = first_of(catalogs, id) else {
        return Ok(None);
    };
    match first_of(&catalogs[first + 1..], id) {
        Some(between) => Err(KnownTwice {
            first,
            second: first + 1 + between,
        }),
        None => Ok(Some(first)),
    }
}

fn first_of(catalogs: &[Catalog], id: &DumpId) -> Option<usize>
    ensures { IsFirst catalogs.now id.now result }
{
    catalogs.iter().position(|catalog| knows(catalog, id))
}

fn knows(catalog: &Catalog, id: &DumpId) -> bool
    ensures { IsTrue result ↔ Knows id.now catalog.now }
{
    catalog.lines().iter().any(|line| line.id().is_same(id))
}
