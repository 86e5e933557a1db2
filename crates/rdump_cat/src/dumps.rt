//! The dumps of which there are volumes.
use crate::cat_fault::CatFault;
use dump_run::{DumpId, LABEL_BYTES, VolumeLabel};
use file_medium::FileMedium;
use rdump_list::{ListSystem, ReelPath, open_plain};
use restore::{Refusal, Wanted};
use std::io;
use tape::{LENGTH_BYTES, Medium};

/// Returns the dumps that are wanted and have a label on one of these record files, each dump once.
pub(crate) fn dumps_of<'a, R: ListSystem>(
    rt: &R,
    reels: &[ReelPath],
    wanted: &Wanted<'_>,
) -> Result<Vec<DumpId>, CatFault<'a>> {
    let mut dumps: Vec<DumpId> = Vec::new(rt.alloc());
    for (reel, path) in reels.iter().enumerate() {
        match label_of(rt, path.path.as_str()) {
            Ok(Some(label)) => {
                let id = label.id();
                if wanted.fits(&label) && !dumps.iter().any(|it| it.is_same(id)) {
                    dumps.push(id.copy())?;
                }
            }
            Ok(None) => {}
            Err(error) => return Err(CatFault::refused(Refusal::Unreadable { reel }, error)),
        }
    }
    Ok(dumps)
}

/// Returns the label that a record file begins with, if there is one. Fails with the system's error
/// if the file cannot be opened, and with None if it cannot be read.
fn label_of<R: ListSystem>(rt: &R, path: &str) -> Result<Option<VolumeLabel>, Option<io::Error>> {
    let file = open_plain(rt, path).map_err(Some)?;
    let mut label = [0u8; LABEL_BYTES];
    match FileMedium::new(file).read_at(LENGTH_BYTES, &mut label) {
        Ok(count) => Ok(VolumeLabel::read(&label[..count])),
        Err(_) => Err(None),
    }
}
