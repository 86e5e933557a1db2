//! A medium that implements only the required calls. It frames what it appends by these calls.

ghost use Rattle.tape.specs.Media.{IsMemory};

use super::medium_calls::{DONE, MediumCall, WantedOfMedium, medium_answers};
use std::test::Fail;
use tape::{Medium, MediumFailed, MemoryMedium};

/// A medium in memory that implements only the required calls.
#[derive(Drop)]
struct PlainMedium(MemoryMedium);

impl Medium for PlainMedium {
    ghost use Rattle.std.proofs.Common.{sym, ◌∙◌};

    ghost holds = { λ m bytes. IsMemory m.0 bytes };

    ghost failures = { λ m. m.0.failures };

    ghost can_fail = { λ _. ⊥ };

    ghost spare = { λ m. m.0.spare };

    fn len(&mut self) -> Result<u64, MediumFailed> {
        self.0.len()
    }

    fn read_at(&mut self, at: u64, into: &mut [u8]) -> Result<usize, MediumFailed> {
        self.0.read_at(at, into)
    }

    fn append(&mut self, bytes: &[u8]) -> Result<(), MediumFailed> {
        self.0.append(bytes)
    }

    fn cut(&mut self, len: u64) -> Result<(), MediumFailed> {
        self.0.cut(len)
    }

    fn failures(&self) -> u64 {
        self.0.failures()
    }

    ghost single = { λ _ _ _ told also. told.0 ∙ sym also.0 };

    ghost bounded = { λ _ _ told. told.1 };
}

/// Bytes between frames are appended to a medium with room for 8 bytes. An append without room
/// fails, and a part of it stays.
static FRAMED: &[WantedOfMedium] = &[
    (MediumCall::AppendFramed(b"(", b"abc"), DONE),
    (MediumCall::AppendFramed(b"<", b"de"), Err(MediumFailed)),
    (MediumCall::Len, Ok((8, b""))),
    (MediumCall::ReadAt(0, 8), Ok((8, b"(abc(<de"))),
    (MediumCall::Failures, Ok((1, b""))),
];

/// Whether a medium with room for 8 bytes gives the expected results.
fn frames(medium: MemoryMedium) -> bool {
    let mut plain = PlainMedium(medium);
    medium_answers(&mut plain, FRAMED)
}

#[test]
fn frames_by_three_appends(rt: HostRuntime) -> Result<(), Fail> {
    let mut medium = MemoryMedium::new(rt.alloc());
    medium.reserve(8)?;
    assert!(&rt; frames(medium));
    Ok(())
}
