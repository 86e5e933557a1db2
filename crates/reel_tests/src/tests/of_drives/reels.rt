//! Two drives with reels whose names are one letter each, and where each reel is.

ghost use Rattle.std.specs.Prelude.{◌≡◌, IfOk, length};

use drives::{DriveFault, ListStacks, ListedReel};

/// Adds two drives without reels. Returns whether they are numbered in order.
pub(super) fn add_drives(stacks: &mut ListStacks) -> Result<bool, DriveFault>
    requires { length stacks.old.library.drives ≡ 0 }
    ensures { IfOk result (λ _. length stacks.new.library.drives ≡ 2) }
{
    let first = stacks.add_drive(b"/dev/st0")?;
    let second = stacks.add_drive(b"/dev/st1")?;
    Ok(first == 0 && second == 1)
}

/// Adds the reels a and b to the first drive, and c to the second.
pub(super) fn add_three_reels(stacks: &mut ListStacks) -> Result<(), DriveFault>
    requires { length stacks.old.library.drives ≡ 2 }
    ensures { length stacks.new.library.drives ≡ 2 }
{
    stacks.add_reel(0, b"a", 100)?;
    stacks.add_reel(0, b"b", 100)?;
    stacks.add_reel(1, b"c", 100)
}

/// Whether the reel has this letter as its name. The letter is a capital if the reel is latched.
fn is_shown(reel: &ListedReel, letter: u8) -> bool {
    reel.name() == [letter.to_ascii_lowercase()].as_slice()
        && reel.reel().is_some() == letter.is_ascii_lowercase()
}

/// Whether these are the reels of these letters, in order.
fn are(reels: &[ListedReel], letters: &str) -> bool {
    for (reel, letter) in reels.iter().zip(letters.as_bytes()) {
        if !is_shown(reel, *letter) {
            return false;
        }
    }
    reels.len() == letters.len()
}

/// The letters of the reels of the first drive, of the second drive, and of the bin, in order.
/// Latched reels have capitals.
pub(super) type Letters = [&'static str; 3];

/// Whether the drives and the bin have these reels.
pub(super) fn lie(stacks: &ListStacks, letters: &Letters) -> bool
    requires { length stacks.now.library.drives ≡ 2 }
{
    are(stacks.stack(0), letters[0])
        && are(stacks.stack(1), letters[1])
        && are(stacks.bin(), letters[2])
}
