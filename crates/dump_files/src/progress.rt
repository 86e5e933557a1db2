//! Shows the progress of a dump.
use console::{CLEAR, LiveLine, LiveText};
use std::fmt::Write as _;
use std::io::{self, Write};
use std::time::Clock;

/// A line on a terminal that shows the volume, the block and the bytes a second of a dump. It is
/// updated at most ten times a second. The rate is counted since the attempt read its first block.
#[derive(Drop)]
pub struct ProgressLine<'a, R: Clock, W: Write> {
    line: LiveLine<'a, R, W>,
    blocks: u32,
    volume: u32,
    block: u32,
}

impl<'a, R: Clock, W: Write> ProgressLine<'a, R, W> {
    /// Makes the progress line of a dump of `blocks` blocks, and shows nothing yet.
    pub fn new(clock: &'a R, terminal: W, blocks: u32) -> Self {
        ProgressLine {
            line: LiveLine::new(clock, terminal),
            blocks,
            volume: 1,
            block: 0,
        }
    }

    /// Begins an attempt to write volume `volume`, whose first block is `first`, counted from 0.
    pub fn begin_volume(&mut self, volume: u32, first: u32) {
        self.volume = volume;
        self.block = first;
        self.line.begin();
    }

    /// Shows that the next block, of `bytes` bytes, is sent.
    pub fn show(&mut self, bytes: usize) {
        self.block = self.block.saturating_add(1);
        if let Some(rate) = self.line.due() {
            let (volume, number, blocks) = (self.volume, self.block, self.blocks);
            let mut text = LiveText::new();
            let _ = write!(text, "volume {volume}, block {number} of {blocks}, {rate}");
            self.line.print(&text);
        }
        self.line.add(bytes);
    }
}

/// A writer of lines, each in one write. It clears the line of progress at a terminal before each
/// write. It has the contracts of the writer.
#[derive(Drop)]
pub struct Clearing<W, T> {
    /// The writer that receives the lines.
    pub lines: W,
    /// The terminal that shows progress, if there is one.
    pub terminal: Option<T>,
}

impl<W: Write, T: Write> Write for Clearing<W, T> {
    ghost contents = { λ c. W.contents c.lines };

    /// A failure to clear the line of progress is ignored.
    fn write(&mut self, buf: &[u8]) -> io::Result<usize> {
        if let Some(terminal) = &mut self.terminal {
            let _ = terminal.write_all(CLEAR);
        }
        self.lines.write(buf)
    }

    fn flush(&mut self) -> io::Result<()> {
        self.lines.flush()
    }
}
