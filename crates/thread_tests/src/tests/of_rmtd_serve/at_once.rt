//! Two sessions that are served at once.

use super::streams::{Counts, Gated, Told};
use super::table::serve_pairs;
use rmtd_serve::Incoming;
use std::test::Fail;

/// Two pairs of streams. The first session's input gives nothing until the second session has
/// replied. The second session's input gives nothing after its first request until the first
/// session has replied.
#[derive(Drop)]
struct TwoPairs<'a> {
    given: u8,
    first: &'a Counts,
    second: &'a Counts,
}

impl<'a> Incoming for TwoPairs<'a> {
    type In = Gated<'a>;

    type Out = Told<'a>;

    ghost is_over = { λ _. Unit {0} };

    fn next(&mut self) -> Option<(Gated<'a>, Told<'a>)> {
        let (early, late, other, counts): (&'static [u8], &'static [u8], _, _) = match self.given {
            0 => (b"", b"O/dev/st0\n2\n", self.second, self.first),
            1 => (b"O/dev/st1\n2\n", b"C\n", self.first, self.second),
            _ => return None,
        };
        self.given = self.given.saturating_add(1);
        let input = Gated {
            early,
            late,
            sign: &other.done,
            wanted: 1,
        };
        Some((input, Told { counts }))
    }
}

/// Each session waits for a reply of the other, so both must be served at the same time.
#[test]
fn two_sessions_at_once(rt: HostRuntime) -> Result<(), Fail> {
    let (first, second) = (Counts::new(), Counts::new());
    let pairs = TwoPairs {
        given: 0,
        first: &first,
        second: &second,
    };
    serve_pairs(&rt, rt.alloc(), pairs)?;
    assert!(rt; first.all() == (1, 0, 1) && second.all() == (2, 0, 1));
    Ok(())
}
