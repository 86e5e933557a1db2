//! The arguments `DEVICE=DIR` of `rmtd`.

ghost use Rattle.std.specs.Prelude.{◌≡◌, ◌≢◌, ◌↔◌, map, option_map, IfOk, IsTrue, MatchOption, MatchResult};
ghost use Rattle.std.specs.List.{list_any, All};
ghost use Rattle.std.specs.Str.{bytes_eq};
ghost use Rattle.rmtd_args.specs.Drive.{drives_given, plain_drive, split_of, HaveOwnDevices, IsDrive, KeepsDriveRules};

use crate::broken_rule::BrokenRule;
use rmt_wire::argument::is_device;
use std::alloc::{AllocError, Global};

/// How many drives the arguments may name, at most.
const DRIVES: usize = 64;

/// A drive with a stack of reels that is a folder.
#[derive(Clone, Copy, Debug, PartialEq, Eq)]
pub struct DriveArgument<'a> {
    /// The name by which clients open the drive: 1 to 255 bytes of one line, none of them `=`.
    pub device: &'a str,
    /// The path of the folder. It is not empty.
    pub folder: &'a str,
}

/// Returns the drives that these arguments give, in order. Fails if an allocation fails.
pub(crate) fn drives_of<'a>(
    alloc: Global,
    arguments: &[&'a str],
) -> Result<Vec<DriveArgument<'a>>, AllocError>
    ensures { IfOk result (λ v. map plain_drive v.items ≡ drives_given arguments.now) }
{
    let mut drives = Vec::new(alloc);
    for argument in arguments {
        drives.push(split(argument))?;
    }
    Ok(drives)
}

/// Splits an argument at its first `=` into a device and a folder. Without a `=` the folder is
/// empty.
fn split<'a>(argument: &'a str) -> DriveArgument<'a>
    ensures { plain_drive result ≡ split_of argument.entry.now }
{
    let (device, folder) = match argument.split_once('=') {
        Some(parts) => parts,
        None => (argument, ""),
    };
    DriveArgument { device, folder }
}

fn is_drive(argument: &str) -> bool
    ensures { IsTrue result ↔ IsDrive (split_of argument.now) }
{
    let drive = split(argument);
    is_device(drive.device.as_bytes()) && !drive.folder.is_empty()
}

/// Checks these arguments against the rules for drives. Fails with the first of these that applies:
/// drives without a bin; more than 64 drives; the first argument that names no drive; the first
/// whose device an earlier one names.
pub(crate) fn check_drives<'a>(
    arguments: &[&'a str],
    bin: Option<&str>,
) -> Result<(), BrokenRule<'a>>
    ensures { MatchResult result
        (λ _. KeepsDriveRules (option_map (λ s. s.now) bin.entry) (drives_given arguments.now))
        (λ _. ¬ (KeepsDriveRules (option_map (λ s. s.now) bin.entry) (drives_given arguments.now))) }
{
    if let Some(argument) = arguments.first()
        && bin.is_none()
    {
        return Err(BrokenRule::NoBin(argument));
    }
    if arguments.len() > DRIVES {
        return Err(BrokenRule::TooMany(arguments[DRIVES]));
    }
    if let Some(argument) = not_drive(arguments) {
        return Err(BrokenRule::Drive(argument));
    }
    match named_again(arguments) {
        Some(argument) => Err(BrokenRule::Again(argument)),
        None => Ok(()),
    }
}

/// Returns the first of the arguments that names no drive.
fn not_drive<'a>(arguments: &[&'a str]) -> Option<&'a str>
    ensures { MatchOption result (All IsDrive (drives_given arguments.now)) (λ _. ¬ (All IsDrive (drives_given arguments.now))) }
{
    for argument in arguments {
        if !is_drive(argument) {
            return Some(argument);
        }
    }
    None
}

/// Returns the first of the arguments whose device an earlier one names.
fn named_again<'a>(arguments: &[&'a str]) -> Option<&'a str>
    ensures { MatchOption result (HaveOwnDevices (drives_given arguments.now)) (λ _. ¬ (HaveOwnDevices (drives_given arguments.now))) }
{
    for place in 0..arguments.len() {
        if any_names(&arguments[..place], split(arguments[place]).device) {
            return Some(arguments[place]);
        }
    }
    None
}

fn any_names(arguments: &[&str], device: &str) -> bool
    ensures { result ≡ list_any (λ w. bytes_eq (split_of w.now).device device.now) arguments.now }
{
    arguments
        .iter()
        .any(|argument| split(argument).device == device)
}
