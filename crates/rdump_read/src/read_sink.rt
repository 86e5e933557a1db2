//! What `rdump read` does with a volume that is read.
use crate::fault::ReelFault;
use crate::out_file::OutFile;
use crate::progress::VolumeProgress;
use console::PlainBytes;
use dump_run::VolumeLabel;
use rdump_net::{ReadFault, SinkStopped, Verdict, VolumeSink};
use rdump_system::{ClientSystem, may_be_terminal};
use rmt_wire::find_byte;
use std::fmt::{self, Display, Formatter};
use std::io::{self, Write};

#[derive(Clone, Copy, PartialEq, Eq)]
pub(crate) enum FirstRecord {
    Label,
    Other,
}

/// How many blocks were written, and of how many bytes.
#[derive(Clone, Copy)]
pub(crate) struct BlockSizes {
    count: u64,
    shortest: usize,
    longest: usize,
    total: u64,
}

impl BlockSizes {
    const NONE: BlockSizes = BlockSizes {
        count: 0,
        shortest: usize::MAX,
        longest: 0,
        total: 0,
    };

    fn add(&mut self, bytes: usize) {
        self.count = self.count.saturating_add(1);
        self.shortest = self.shortest.min(bytes);
        self.longest = self.longest.max(bytes);
        self.total = self.total.saturating_add(bytes as u64);
    }
}

impl Display for BlockSizes {
    fn fmt<W: fmt::Write>(&self, f: &mut Formatter<W>) -> fmt::Result {
        let BlockSizes {
            count,
            shortest,
            longest,
            total,
        } = *self;
        match count {
            0 => f.write_str("0 blocks"),
            1 => write!(f, "1 block of {total} bytes"),
            _ if shortest == longest => write!(f, "{count} blocks of {longest} bytes"),
            _ => write!(
                f,
                "{count} blocks of {shortest} to {longest} bytes, {total} bytes in all"
            ),
        }
    }
}

/// Standard output gets the text of the first record, and the file gets the blocks. `T` is the
/// terminal that shows the progress.
///
/// If standard output may be a terminal, control characters in a text that is not a label are
/// printed as `?`. If the text cannot be printed, the file keeps its contents.
#[derive(Drop)]
pub(crate) struct ReadSink<'a, R: ClientSystem, T: Write + Drop> {
    rt: &'a R,
    out: &'a str,
    file: OutFile<'a, R>,
    progress: Option<VolumeProgress<'a, R, T>>,
    first: Option<FirstRecord>,
    sizes: BlockSizes,
    stop: Option<ReelFault<'a>>,
}

impl<'a, R: ClientSystem, T: Write + Drop> ReadSink<'a, R, T> {
    /// Makes a sink for this file, whose path is `out`.
    pub(crate) fn new(rt: &'a R, out: &'a str, file: OutFile<'a, R>, terminal: Option<T>) -> Self {
        ReadSink {
            rt,
            out,
            file,
            progress: terminal.map(|it| VolumeProgress::new(rt, it)),
            first: None,
            sizes: BlockSizes::NONE,
            stop: None,
        }
    }

    pub(crate) fn clear(&mut self) {
        if let Some(progress) = &mut self.progress {
            progress.clear();
        }
    }

    /// None if there was no record.
    pub(crate) fn first(&self) -> Option<FirstRecord> {
        self.first
    }

    pub(crate) fn sizes(&self) -> BlockSizes {
        self.sizes
    }

    pub(crate) fn empty(&mut self) {
        if let Err(error) = self.file.begin() {
            self.stop = Some(ReelFault::File(self.out, error));
        }
    }

    /// Syncs the file, unless the sink stopped the read or the read failed.
    pub(crate) fn finish(&self, read: Result<(), ReadFault>) -> Result<(), ReelFault<'a>> {
        match (self.stop, read) {
            (Some(stop), _) => Err(stop),
            (None, Err(fault)) => Err(ReelFault::Unread(fault)),
            (None, Ok(())) => match self.file.sync() {
                Ok(()) => Ok(()),
                Err(error) => Err(ReelFault::File(self.out, error)),
            },
        }
    }

    /// Removes the file if this run created it and did not begin to write it.
    pub(crate) fn end(self) {
        self.file.end();
    }

    /// Prints the text of a first record, and only then empties the file.
    fn begin(&mut self, record: &[u8], label: Option<&VolumeLabel>) -> Result<(), ReelFault<'a>> {
        let text = text_of(record);
        let mut out = io::writer(self.rt);
        let printed = if label.is_none() && may_be_terminal(self.rt) {
            write!(out, "{}", PlainBytes(text))
        } else {
            out.write_all(text)
        };
        if printed.is_err() {
            return Err(ReelFault::Unwritten);
        }
        match self.file.begin() {
            Ok(()) => Ok(()),
            Err(error) => Err(ReelFault::File(self.out, error)),
        }
    }
}

impl<'a, R: ClientSystem, T: Write + Drop> VolumeSink for ReadSink<'a, R, T> {
    ghost takes = { λ _ _ _ _. Unit };

    fn label(&mut self, record: &[u8]) -> Verdict {
        let label = VolumeLabel::read(record);
        self.first = match label {
            Some(_) => Some(FirstRecord::Label),
            None => Some(FirstRecord::Other),
        };
        if let Some(progress) = &mut self.progress {
            progress.begin(label.as_ref().map(|it| it.volume()));
            progress.show(record.len());
        }
        match self.begin(record, label.as_ref()) {
            Ok(()) => Verdict::GoOn,
            Err(stop) => {
                self.stop = Some(stop);
                Verdict::Stop
            }
        }
    }

    fn block(&mut self, _number: u64, bytes: &[u8]) -> Result<(), SinkStopped> {
        if let Some(progress) = &mut self.progress {
            progress.show(bytes.len());
        }
        if let Err(error) = self.file.append(bytes) {
            self.stop = Some(ReelFault::File(self.out, error));
            return Err(SinkStopped);
        }
        self.sizes.add(bytes.len());
        Ok(())
    }

    fn mark(&mut self) {}

    fn complete(&mut self) -> Result<(), SinkStopped> {
        Ok(())
    }
}

/// Returns the text of a label: the bytes before its first zero byte.
fn text_of(record: &[u8]) -> &[u8] {
    match find_byte(record, 0) {
        Some(at) => &record[..at],
        None => record,
    }
}
