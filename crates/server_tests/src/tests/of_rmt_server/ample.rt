//! With enough memory no allocation fails.

use super::fixture::END;
use super::served::{Row, is_answered};

/// A record is written and read back.
static READ_BACK: Row<'static> = (
    b"O/dev/st0\n2\nW5\nhelloI0\n1\nI5\n1\nR10\nR10\nC\n",
    b"A0\nA5\nA1\nA1\nA5\nhelloA0\nA0\n",
    END,
    b"A0\nA5\nhello",
);

#[test]
fn ample_memory(rt: HostRuntime) {
    assert!(rt; is_answered(rt.alloc(), &READ_BACK));
}
