//! Allocations that succeed, and one that fails.

use super::calls::{enter, has_text};
use dumpdates::{Dates, DatesFault};
use std::alloc::AllocError;
use std::test::Fail;

/// Three entries.
const TEXT: &[u8] = b"/usr                             0 Tue Feb 29 00:00:00 2000\n\
/usr                             1 Tue Feb 29 00:00:00 2000\n\
/home                            0 Thu Jan  1 00:00:00 1970\n";

/// Whether a list is written, and accepts a new entry.
fn is_ample(dates: &mut Dates) -> bool {
    has_text(dates, TEXT) && enter(dates, ("/var", 1, 5)) && dates.base("/var", 2) == 5
}

#[test]
fn ample_memory(rt: HostRuntime) -> Result<(), Fail> {
    let mut dates = Dates::read(rt.alloc(), TEXT)?;
    assert!(rt; is_ample(&mut dates));
    Ok(())
}

/// An allocation failure is reported as `OutOfMemory`.
#[test]
fn refused_growths_are_want_of_memory(rt: HostRuntime) {
    assert!(rt; DatesFault::from(AllocError) == DatesFault::OutOfMemory);
}
