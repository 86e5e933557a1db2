//! The catalog that reels are compared with.
use crate::ListSystem;
use crate::fault::{ListFault, at, go_on};
use catalog::{Catalog, CatalogFault};
use std::alloc::AllocError;
use volume_check::{EntryHasher, Holding, ReelContents};
use whole_files::read_named;

/// Reads the catalog at this path. If it cannot be read or is not valid, it prints why and
/// returns None. Fails if an allocation fails.
pub fn read_catalog<R: ListSystem>(rt: &R, path: &str) -> Result<Option<Catalog>, AllocError> {
    go_on(rt, catalog_at(rt, path))
}

/// Reads the catalog at this path.
pub(crate) fn catalog_at<'a, R: ListSystem>(
    rt: &R,
    path: &'a str,
) -> Result<Catalog, ListFault<'a>> {
    let bytes = at(path, read_named(rt, rt.alloc(), path))?;
    match Catalog::read(rt.alloc(), &bytes) {
        Ok(catalog) => Ok(catalog),
        Err(CatalogFault::OutOfMemory) => Err(ListFault::OutOfMemory),
        Err(fault) => Err(ListFault::NoCatalog(path, fault)),
    }
}
