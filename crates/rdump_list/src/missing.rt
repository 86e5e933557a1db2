//! The volumes of a dump that are missing.
ghost use Rattle.std.specs.Prelude.{◌≤◌, Contains, IfOk};
ghost use Rattle.dump_run.specs.Run.{blocks_limit};
ghost use Rattle.rdump_list.specs.DumpFound.{AreMissing, IsLeastFrom};

use std::alloc::{AllocError, Global};

/// Volumes with successive numbers.
#[derive(Clone, Copy, Debug, PartialEq, Eq)]
pub struct VolumeRange {
    /// The number of the first one.
    pub first: u32,
    /// The number of the last one.
    pub last: u32,
}

pub(crate) fn missing_of(
    alloc: Global,
    there: &[u32],
    volumes: u32,
) -> Result<Vec<VolumeRange>, AllocError>
    requires { volumes ≤ blocks_limit }
    ensures { IfOk result (λ missing. AreMissing (Contains there.now) volumes missing.items) }
{
    let mut missing = Vec::new(alloc);
    let mut done = 0;
    while done < volumes {
        let next = next_there(there, done + 1, volumes);
        if next > done + 1 {
            missing.push(VolumeRange {
                first: done + 1,
                last: next - 1,
            })?;
        }
        done = next.min(volumes);
    }
    Ok(missing)
}

fn next_there(there: &[u32], from: u32, volumes: u32) -> u32
    requires { (from ≤ volumes) × (volumes ≤ blocks_limit) }
    ensures { IsLeastFrom there.now from volumes result }
{
    let mut next = volumes + 1;
    for number in there {
        if *number >= from && *number < next {
            next = *number;
        }
    }
    next
}
