//! Shows how far a reel is read.
use console::{LiveLine, LiveText};
use std::fmt::Write as _;
use std::io::Write;
use std::time::Clock;

/// A line on a terminal that shows the volume, the block and the bytes a second. It is updated at
/// most ten times a second. For a reel without a label it shows no volume.
#[derive(Drop)]
pub(crate) struct VolumeProgress<'a, R: Clock, W: Write> {
    line: LiveLine<'a, R, W>,
    volume: Option<u32>,
    records: u64,
}

impl<'a, R: Clock, W: Write> VolumeProgress<'a, R, W> {
    pub(crate) fn new(clock: &'a R, terminal: W) -> Self {
        VolumeProgress {
            line: LiveLine::new(clock, terminal),
            volume: None,
            records: 0,
        }
    }

    /// Begins a reel, with the number of its volume if it has a label.
    pub(crate) fn begin(&mut self, volume: Option<u32>) {
        self.volume = volume;
        self.records = 0;
        self.line.begin();
    }

    /// Shows the record that is written next. The first record is not shown: block 1 follows it.
    pub(crate) fn show(&mut self, bytes: usize) {
        let number = self.records;
        self.records = number.saturating_add(1);
        if number == 0 {
            return;
        }
        if let Some(rate) = self.line.due() {
            let mut text = LiveText::new();
            let _ = match self.volume {
                Some(volume) => write!(text, "volume {volume}, block {number}, {rate}"),
                None => write!(text, "block {number}, {rate}"),
            };
            self.line.print(&text);
        }
        self.line.add(bytes);
    }

    pub(crate) fn clear(&mut self) {
        self.line.clear();
    }
}
