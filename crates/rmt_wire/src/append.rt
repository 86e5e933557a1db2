//! Appends texts to a vector.

ghost use Rattle.std.specs.Prelude.{◌≡◌, ◌+◌, ◌<◌, ◌≤◌, ◌++◌, length, OnOk, OnErr};
ghost use Rattle.std.specs.Vec.{vec_capacity, vec_len};

use std::alloc::AllocError;

/// Appends both texts, or neither if an allocation fails.
pub fn push_text(out: &mut Vec<u8>, first: &[u8], second: &[u8]) -> Result<(), AllocError>
    requires { length first.now + length second.now ≤ 2147483659 }
    ensures appended { OnOk result (out.new.items ≡ out.old.items ++ (first.now ++ second.now)) }
    ensures unchanged { OnErr result ((out.new.items ≡ out.old.items) × (vec_capacity out.new ≡ vec_capacity out.old)) }
    ensures full { OnErr result (vec_capacity out.old < vec_len out.old + (length first.now + length second.now)) }
{
    out.reserve(first.len() + second.len())?;
    out.extend_from_slice(first)?;
    out.extend_from_slice(second)
}
