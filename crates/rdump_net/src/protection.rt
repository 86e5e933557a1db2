//! Whether a dump may write on a reel, by what the reel begins with.
ghost use Rattle.std.specs.Prelude.{◌≡◌};
ghost use Rattle.rdump_net.specs.Look.{plain_front};
ghost use Rattle.rdump_net.specs.Protection.{IsDecided, IsLabelDecided, dump_key};

use crate::ReelFront;
use dump_run::VolumeLabel;

/// Why a dump must not write on a reel.
#[derive(Clone, Copy, Debug, PartialEq, Eq)]
pub enum Protection {
    /// The reel begins with the label of another dump.
    OtherDump,
    /// The reel begins with a record that is not a label.
    NoLabel,
    /// The reel begins with a mark.
    Mark,
}

/// Returns why a dump must not overwrite a reel that begins with `front`, or None if it may.
///
/// A dump may overwrite an empty reel, and one that begins with a label of the same name, level and
/// date, whatever its volume number. `date` is in seconds since 1970 began, UTC.
pub fn find_protection(front: &ReelFront, name: &str, level: u64, date: u64) -> Option<Protection>
    ensures { IsDecided (dump_key name.now level date) (plain_front front.now) result }
{
    match front {
        ReelFront::Empty => None,
        ReelFront::Mark => Some(Protection::Mark),
        ReelFront::Record(bytes) => match VolumeLabel::read(bytes) {
            Some(label) => other_dump(&label, name, level, date),
            None => Some(Protection::NoLabel),
        },
    }
}

fn other_dump(label: &VolumeLabel, name: &str, level: u64, date: u64) -> Option<Protection>
    ensures { IsLabelDecided (dump_key name.now level date) label.now result }
{
    if label.name() == name && u64::from(label.level()) == level && label.date() == date {
        return None;
    }
    Some(Protection::OtherDump)
}
