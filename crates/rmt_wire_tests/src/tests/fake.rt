//! A stream for tests. It takes or gives a few bytes a call, and fails for some calls or from some
//! call on.
ghost use Rattle.std.specs.Prelude.{◌≡◌, IfOk};

use std::alloc::Global;
use std::io::{self, ErrorKind, Read, Write};

/// Takes or gives at most `piece` bytes a call. After `before` calls, `failing` calls fail; all
/// others work.
#[derive(Drop)]
pub(crate) struct Fake {
    pub(crate) taken: Vec<u8>,
    piece: usize,
    before: usize,
    failing: usize,
    /// How a call fails. If None, it takes or gives no byte.
    trouble: Option<ErrorKind>,
    /// How often it was called.
    pub(crate) calls: usize,
}

impl Fake {
    pub(crate) fn new(
        alloc: Global,
        piece: usize,
        before: usize,
        failing: usize,
        trouble: Option<ErrorKind>,
    ) -> Self {
        Fake {
            taken: Vec::new(alloc),
            piece,
            before,
            failing,
            trouble,
            calls: 0,
        }
    }

    /// Counts a call, and returns whether it works.
    fn works_now(&mut self) -> bool {
        let call = self.calls;
        self.calls = call.saturating_add(1);
        call < self.before || call.saturating_sub(self.before) >= self.failing
    }

    fn answer(&self) -> io::Result<usize>
        ensures { IfOk result (λ n. n ≡ 0) }
    {
        match self.trouble {
            Some(kind) => Err(kind.into()),
            None => Ok(0),
        }
    }
}

impl Write for Fake {
    fn write(&mut self, buf: &[u8]) -> io::Result<usize> {
        if !self.works_now() {
            return self.answer();
        }
        let count = buf.len().min(self.piece);
        self.taken.extend_from_slice(&buf[..count])?;
        Ok(count)
    }

    fn flush(&mut self) -> io::Result<()> {
        Err(ErrorKind::BrokenPipe.into())
    }
}

impl Read for Fake {
    fn read(&mut self, buf: &mut [u8]) -> io::Result<usize> {
        if !self.works_now() {
            return self.answer();
        }
        let count = buf.len().min(self.piece);
        buf[..count].fill(b'x');
        Ok(count)
    }
}
