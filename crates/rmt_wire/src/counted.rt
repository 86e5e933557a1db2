//! Streams whose failures are counted.

ghost use Rattle.std.specs.Prelude.{◌≡◌, ◌+◌, ◌-◌, ◌<◌, length, IfOk, OnOk, OnErr, MatchResult};
ghost use Rattle.std.specs.Io.{ReadsAtMost, WritesAtMost};
ghost use Rattle.std.specs.Io.KnownBytes.{ReadConsumes, WriteAppends, Keeps};
ghost use Rattle.rmt_wire.specs.Counted.{raised};

use std::io::{self, ErrorKind, Read, Write};
use std::marker::Model;

/// A reader or writer that counts its failures: each failed read or write, and each write of one
/// byte or more that accepts none. The count stays at `u64::MAX`. Flushes are not counted.
///
/// `u64::MAX` reads are passed on. Each later read fails without calling the inner reader, and is
/// counted.
#[derive(Drop)]
pub struct Counted<T> {
    inner: T,
    failures: u64,
    // How many more reads are passed on.
    left: u64,
}

impl<T> Model for Counted<T> {
    ghost use Rattle.rmt_wire.specs.Counted.{Counting, counting_code};

    ghost Value = { Counting T };

    ghost coded = { counting_code T.code };

    ghost view = { λ c. record { inner = c.inner; failures = c.failures; left = c.left } };
}

impl<T> Counted<T> {
    /// Wraps a stream, with no failure counted and `u64::MAX` reads left.
    pub fn new(inner: T) -> Self
        ensures inner { result.inner ≡ inner }
        ensures failures { result.failures ≡ 0 }
        ensures left { result.left ≡ u64.MAX }
    {
        Counted {
            inner,
            failures: 0,
            left: u64::MAX,
        }
    }

    /// Returns how many failures were counted.
    pub fn failures(&self) -> u64
        ensures { result ≡ self.now.failures }
    {
        self.failures
    }

    /// Returns the wrapped reader or writer.
    pub fn into_inner(self) -> T
        // The types allow no other body, so no wrong body is tried.
        ensures { result ≡ self.inner }
    {
        self.inner
    }
}

impl<R: Read> Read for Counted<R> {
    // While reads are left, each read is one call with the whole buffer. No contract counts calls;
    // the test `failed_reads_are_counted` does.

    ghost remaining = { λ c. R.remaining c.inner };

    fn read(&mut self, buf: &mut [u8]) -> io::Result<usize>
        ensures bound { ReadsAtMost result buf.new }
        ensures bytes { ReadConsumes (R.remaining self.old.inner) (R.remaining self.new.inner) result buf.new }
        ensures failures { MatchResult result (λ _. self.new.failures ≡ self.old.failures)
            (λ _. self.new.failures ≡ raised self.old.failures) }
        ensures left { OnOk result (self.new.left + 1 ≡ self.old.left) }
        ensures lowered { self.new.left ≡ self.old.left - 1 }
        ensures spent { self.old.left ≡ 0 → self.new.inner ≡ self.old.inner }
    {
        if self.left == 0 {
            self.failures = raise(self.failures);
            return Err(ErrorKind::Other.into());
        }
        self.left -= 1;
        let given = self.inner.read(buf);
        if given.is_err() {
            self.failures = raise(self.failures);
        }
        given
    }
}

impl<W: Write> Write for Counted<W> {
    // Each write and each flush is one call, with all bytes of a write. The tests `numbers`,
    // `data_of_few_bytes` and `nothing_is_written_after_a_failed_write` count calls.

    ghost contents = { λ c. W.contents c.inner };

    fn write(&mut self, buf: &[u8]) -> io::Result<usize>
        ensures bound { WritesAtMost result buf.now }
        ensures bytes { WriteAppends (W.contents self.old.inner) (W.contents self.new.inner) result buf.now }
        ensures failed { OnErr result (self.new.failures ≡ raised self.old.failures) }
        ensures took_none { IfOk result (λ n. n ≡ 0 → 0 < length buf.now → self.new.failures ≡ raised self.old.failures) }
        ensures took_some { IfOk result (λ n. 0 < n → self.new.failures ≡ self.old.failures) }
        ensures nothing_to_take { OnOk result (length buf.now ≡ 0 → self.new.failures ≡ self.old.failures) }
        ensures left { self.new.left ≡ self.old.left }
    {
        let taken = self.inner.write(buf);
        let failed = match &taken {
            Ok(count) => *count == 0 && !buf.is_empty(),
            Err(_) => true,
        };
        if failed {
            self.failures = raise(self.failures);
        }
        taken
    }

    fn flush(&mut self) -> io::Result<()>
        ensures bytes { Keeps (W.contents self.old.inner) (W.contents self.new.inner) }
        ensures failures { self.new.failures ≡ self.old.failures }
        ensures left { self.new.left ≡ self.old.left }
    {
        self.inner.flush()
    }
}

fn raise(failures: u64) -> u64
    ensures { result ≡ raised failures }
{
    failures.saturating_add(1)
}
