//! The catalogs that a command line names.
ghost use Rattle.std.specs.Prelude.{◌≡◌, IfOk, length};

use crate::cat_fault::CatFault;
use catalog::Catalog;
use rdump_list::{ListSystem, read_catalog};

/// Reads the catalogs at these paths, in this order.
pub(crate) fn read_catalogs<'a, R: ListSystem>(
    rt: &R,
    paths: &[&str],
) -> Result<Vec<Catalog>, CatFault<'a>>
    ensures { IfOk result (λ catalogs. length catalogs.items ≡ length paths.now) }
{
    let mut catalogs = Vec::new(rt.alloc());
    for path in paths {
        match read_catalog(rt, path)? {
            Some(catalog) => catalogs.push(catalog)?,
            None => return Err(CatFault::Told),
        }
    }
    Ok(catalogs)
}
