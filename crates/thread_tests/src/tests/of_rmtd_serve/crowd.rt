//! More pairs of streams than seats.

use super::streams::{Counts, Gated, Told, reaches};
use super::table::serve_pairs;
use rmtd_serve::Incoming;
use std::sync::atomic::{AtomicU64, Ordering};
use std::test::Fail;

/// Pairs of streams. First 32 of two requests each, the second of which is given after a sign. Then
/// one, when each of these has had its first reply. Then, after the sign, one when all 32 have
/// ended.
#[derive(Drop)]
struct Full<'a> {
    given: u64,
    sign: &'a AtomicU64,
    seated: &'a Counts,
    past: &'a Counts,
    last: &'a Counts,
}

impl<'a> Full<'a> {
    /// Returns the counts for the replies to the next pair.
    fn counts(&self) -> Option<&'a Counts> {
        match self.given {
            0..=31 => Some(self.seated),
            32 => {
                reaches(&self.seated.errors, 32);
                Some(self.past)
            }
            33 => {
                self.sign.store(1, Ordering::SeqCst);
                reaches(&self.seated.ended, 32);
                Some(self.last)
            }
            _ => None,
        }
    }
}

impl<'a> Incoming for Full<'a> {
    type In = Gated<'a>;

    type Out = Told<'a>;

    ghost is_over = { λ _. Unit {0} };

    fn next(&mut self) -> Option<(Gated<'a>, Told<'a>)> {
        let counts = self.counts()?;
        self.given = self.given.saturating_add(1);
        let input = Gated {
            early: b"C\n",
            late: b"C\n",
            sign: self.sign,
            wanted: 1,
        };
        Some((input, Told { counts }))
    }
}

/// A pair that comes while 32 are served is dropped without a reply. A pair that comes after others
/// have ended is served.
#[test]
fn a_pair_past_32_is_let_go(rt: HostRuntime) -> Result<(), Fail> {
    let sign = AtomicU64::new(0);
    let (seated, past, last) = (Counts::new(), Counts::new(), Counts::new());
    let pairs = Full {
        given: 0,
        sign: &sign,
        seated: &seated,
        past: &past,
        last: &last,
    };
    serve_pairs(&rt, rt.alloc(), pairs)?;
    assert!(rt; seated.all() == (0, 64, 32) && past.all() == (0, 0, 1) && last.all() == (0, 2, 1));
    Ok(())
}
