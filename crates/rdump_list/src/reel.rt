//! A listed reel.
use crate::status::is_passed;
use crate::undetermined::Undetermined;
use crate::verdict::is_whole;
use catalog::SumVerdict;
use volume_check::{Holding, ReelContents, Volume, VolumeEnd};

#[derive(Clone, Copy)]
pub(crate) enum Source {
    File,
    /// The bytes are not known. If the reel is no volume, not all records and marks are counted.
    Drive,
    /// A drive or a record file, but the contents could not be determined. They are what was read
    /// until then.
    Undetermined(Undetermined),
}

/// Holds at most one label.
#[derive(Drop)]
pub(crate) struct ListedReel {
    /// The path of its file, or the device name of its drive.
    pub(crate) path: String,
    pub(crate) contents: ReelContents,
    pub(crate) source: Source,
    /// What the comparison with a catalog found, if the reel is whole and there is a catalog.
    pub(crate) sum: Option<SumVerdict>,
}

impl ListedReel {
    /// Returns the volume on the reel, whole or not.
    pub(crate) fn volume(&self) -> Option<&Volume> {
        match &self.contents.holding {
            Holding::Volume(volume) => Some(volume),
            _ => None,
        }
    }

    /// Whether the verdict on the reel is `whole`.
    pub(crate) fn is_whole(&self) -> bool {
        match self.source {
            Source::File | Source::Drive => is_whole(&self.contents),
            Source::Undetermined(_) => false,
        }
    }

    /// Whether the reel is whole, and its sum does not fail the list.
    pub(crate) fn is_good(&self) -> bool {
        is_passed(self.sum) && self.is_whole()
    }

    /// Returns the volume on it, if exactly one mark follows its blocks. Bytes that make no entry
    /// may follow too. Such a volume can be read back whole. Returns None if the contents are
    /// undetermined.
    pub(crate) fn ended_volume(&self) -> Option<&Volume> {
        match (self.source, self.volume()) {
            (Source::File | Source::Drive, Some(volume)) if volume.end == VolumeEnd::OneMark => {
                Some(volume)
            }
            _ => None,
        }
    }
}
