//! The order of reels.
use crate::reel::ListedReel;

/// The first part of the sort key. Reels without a volume come last.
fn dump_of(reel: &ListedReel) -> (bool, &str, u8, u64) {
    match reel.volume() {
        Some(volume) => {
            let label = &volume.label;
            (false, label.name(), label.level(), label.date())
        }
        None => (true, "", 0, 0),
    }
}

/// The sort key.
fn place_of(reel: &ListedReel) -> ((bool, &str, u8, u64), u32, &str) {
    let number = reel.volume().map_or(0, |volume| volume.label.volume());
    (dump_of(reel), number, reel.path.as_str())
}

/// Sorts reels by the name, level, date and number of their volumes, and then by their paths.
pub(crate) fn sort(reels: &mut [ListedReel]) {
    reels.sort_unstable_by(|one, other| place_of(one).cmp(&place_of(other)));
}

/// Returns the reels whose volumes have this name, level and date. `reels` must be sorted.
pub(crate) fn reels_of<'a>(
    reels: &'a [ListedReel],
    name: &str,
    level: u8,
    date: u64,
) -> &'a [ListedReel] {
    let dump = (false, name, level, date);
    let from = &reels[reels.partition_point(|reel| dump_of(reel) < dump)..];
    &from[..from.partition_point(|reel| dump_of(reel) <= dump)]
}
