//! A run and its payload.

use dump_client::Run;
use std::alloc::{AllocError, Global};
use std::test::Fail;
use tape_world::Event;

/// A run and its payload.
#[derive(Drop)]
pub(crate) struct Dump {
    run: Run,
    payload: Vec<u8>,
}

impl Dump {
    /// Makes a dump of the file system `/usr` to `/dev/st0` at level 0, with this many blocks of
    /// 1,024 bytes. Each byte of block i is i modulo 256.
    pub(crate) fn new(alloc: Global, blocks: u64) -> Result<Dump, Fail> {
        let run = Run::new(b"/dev/st0", "/usr", 0, 951782400, 0, 1024, blocks)?;
        let mut dump = Dump {
            run,
            payload: Vec::new(alloc),
        };
        dump.fill()?;
        Ok(dump)
    }

    /// Appends the blocks of the run to the payload.
    fn fill(&mut self) -> Result<(), AllocError> {
        for block in 0..self.run.blocks() {
            let end = self.payload.len().saturating_add(self.run.block_bytes());
            self.payload.resize(end, (block % 256) as u8)?;
        }
        Ok(())
    }

    /// Returns the event that starts the run.
    pub(crate) fn start(&self) -> Event<'_> {
        Event::StartRun {
            run: &self.run,
            payload: self.payload.as_slice(),
        }
    }
}
