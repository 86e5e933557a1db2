//! The length of a record.

use std::alloc::{AllocError, Global};
use std::test::Fail;
use tape::is_record;

/// Whether all of these bytes but the last are a record, and all of them are not.
fn are_one_too_many(bytes: &[u8]) -> bool {
    let Some((_, others)) = bytes.split_last() else {
        return false;
    };
    is_record(others) && !is_record(bytes)
}

/// Whether 262,145 bytes are one too many for a record.
fn is_limit(alloc: Global) -> Result<bool, AllocError> {
    let bytes = Vec::from_elem(alloc, 0u8, 262145)?;
    Ok(are_one_too_many(&bytes))
}

#[test]
fn a_record_has_from_1_to_262144_bytes(rt: HostRuntime) -> Result<(), Fail> {
    let has_limit = is_limit(rt.alloc())?;
    assert!(&rt; has_limit && is_record(b"a") && !is_record(b""));
    Ok(())
}
