//! The names in a folder.
use crate::ListSystem;
use std::io::{self, BufRead, BufReader};

/// Returns the names in a folder that do not begin with a dot, in the order of their bytes. If
/// `folder` is a link to a folder, it is followed.
pub(crate) fn names_in<R: ListSystem>(rt: &R, folder: &str) -> io::Result<Vec<Vec<u8>>> {
    let path = format!(in rt.alloc(); "{folder}/")?;
    let listed = BufReader::new(rt.alloc(), rt.open_dir(path.as_str())?)?;
    let mut names = Vec::new(rt.alloc());
    for name in listed.split(rt.alloc(), 0) {
        let name = name?;
        if !name.starts_with(b".") {
            names.push(name)?;
        }
    }
    names.sort_unstable();
    Ok(names)
}
