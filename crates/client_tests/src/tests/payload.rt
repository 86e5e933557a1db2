//! A payload on a medium in memory.

use super::fixture::{Payload, payload};
use dump_client::Blocks;

/// Whether a payload has six bytes, and no read of it has failed.
fn is_six_bytes(payload: &Option<Payload>) -> bool {
    match payload {
        Some(payload) => (payload.len(), payload.failures()) == (6, 0),
        None => false,
    }
}

#[test]
fn a_length_and_no_failures(rt: HostRuntime) {
    assert!(rt; is_six_bytes(&payload(rt.alloc(), 4)));
}
