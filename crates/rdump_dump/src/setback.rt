//! The messages about an attempt that failed or must not begin.

use crate::shell_word::OfflineCommand;
use console::plain;
use dump_client::AttemptFault;
use dump_run::{LABEL_BYTES, VolumeLabel};
use rdump_args::DumpLine;
use rdump_net::{Protection, ReelFront};
use refusals::{Refusal, TapeRequest};
use remote_tape::{CallFault, FaultReport, TapeCause, TapeFault};
use std::fmt::{self, Display, Formatter, Write as _};
use std::io;
use tape::{LENGTH_BYTES, entry_size};

/// How many bytes a record takes on a reel besides its own: its length before it and after it.
const FRAME_BYTES: u64 = 2 * LENGTH_BYTES;

#[derive(Clone, Copy)]
pub(crate) struct Failure<'l, 'a, 'e> {
    pub line: &'l DumpLine<'a>,
    pub fault: AttemptFault,
    /// The request that was sent last, which is the one that a server refuses.
    pub asked: TapeRequest,
    /// The system's error, if the connection failed with one.
    pub error: Option<&'e io::Error>,
}

impl<'a> Failure<'_, 'a, '_> {
    /// Returns what is at fault: the server's address, or the payload.
    pub(crate) fn subject(&self) -> &'a str {
        match self.fault {
            AttemptFault::SourceFault => self.line.payload,
            _ => self.line.to,
        }
    }
}

impl Display for Failure<'_, '_, '_> {
    fn fmt<W: fmt::Write>(&self, f: &mut Formatter<W>) -> fmt::Result {
        let (fault, line) = (self.fault, self.line);
        match (fault, self.error) {
            (AttemptFault::ConnectionEnded, Some(error)) => write!(f, "{error}"),
            (AttemptFault::ConnectionEnded, None) => f.write_str("the connection ended"),
            (AttemptFault::Refused(number), _) => {
                let refusal = Refusal::new(self.asked, number, line.device);
                write!(f, "Refused {number}: {refusal}")
            }
            (AttemptFault::CountedReel(volume), _) => {
                let (device, away) = (plain(line.device), OfflineCommand(line));
                write!(
                    f,
                    "CountedReel {volume}: the first reel of the stack of {device} begins with the \
                     label of volume {volume}, which this dump has counted; take it away ({away}) or \
                     lay another one first, then answer yes"
                )
            }
            (AttemptFault::SourceFault, _) => f.write_str(
                "a block could not be read: the file became shorter, or its disk failed",
            ),
            (AttemptFault::ReelTooSmall, _) => write!(f, "{}", SmallReel(line.block)),
            (AttemptFault::Botched, _) => write!(f, "{}", CallFault::Botched),
            (AttemptFault::ShortWrite | AttemptFault::OutOfMemory, _) => Ok(()),
        }
    }
}

/// How many bytes a volume of one block of this size takes on a reel, which has less room.
#[derive(Clone, Copy)]
struct SmallReel(u64);

impl Display for SmallReel {
    fn fmt<W: fmt::Write>(&self, f: &mut Formatter<W>) -> fmt::Result {
        let (label, mark) = (entry_size(LABEL_BYTES as u32), entry_size(0));
        let block = self.0.saturating_add(FRAME_BYTES);
        let total = label.saturating_add(block).saturating_add(mark);
        write!(
            f,
            "ReelTooSmall: a volume of one block takes {total} bytes (label {label}, block {block}, \
             mark {mark}), and the reel has less room: the server's capacity or disk is too small; \
             start rmtd with a larger --capacity, or use a smaller --block"
        )
    }
}

/// Why an attempt must not begin.
#[derive(Drop)]
pub(crate) enum Obstacle {
    /// The reel begins like this, and is not of this dump.
    Protected(ReelFront, Protection),
    /// The look at the reel failed.
    Unseen(TapeFault),
}

#[derive(Clone, Copy)]
pub(crate) struct ObstacleReport<'l, 'a, 'o, 'e> {
    pub line: &'l DumpLine<'a>,
    pub obstacle: &'o Obstacle,
    /// The system's error, if the connection of the look failed with one. It is printed in place of
    /// a fault that says only that the connection ended.
    pub error: Option<&'e io::Error>,
}

impl Display for ObstacleReport<'_, '_, '_, '_> {
    fn fmt<W: fmt::Write>(&self, f: &mut Formatter<W>) -> fmt::Result {
        match self.obstacle {
            Obstacle::Protected(front, protection) => {
                let (device, away) = (plain(self.line.device), OfflineCommand(self.line));
                write!(f, "protected: the first reel of {device} ")?;
                match (protection, label_of(front)) {
                    (Protection::OtherDump, Some(label)) => {
                        let (name, level) = (label.name(), label.level());
                        let (date, volume) = (label.date(), label.volume());
                        write!(
                            f,
                            "has a volume of another dump: {name} level {level} date {date}, volume \
                             {volume}"
                        )?;
                    }
                    (Protection::Mark, _) => f.write_str("begins with a mark")?,
                    _ => f.write_str("begins with a record that is no label")?,
                }
                write!(
                    f,
                    "; take it away ({away}) or lay another reel first, then answer yes"
                )
            }
            Obstacle::Unseen(fault) => {
                let (fault, device) = (*fault, self.line.device);
                f.write_str("the look failed: ")?;
                match fault.cause {
                    TapeCause::Refused(number) => {
                        let refusal = Refusal::new(fault.request, number, device);
                        write!(f, "{}: Refused {number}: {refusal}", fault.request)
                    }
                    TapeCause::NoReply(_) => {
                        let failure = self.error;
                        write!(
                            f,
                            "{}",
                            FaultReport {
                                fault,
                                device,
                                failure
                            }
                        )
                    }
                }
            }
        }
    }
}

fn label_of(front: &ReelFront) -> Option<VolumeLabel> {
    match front {
        ReelFront::Record(bytes) => VolumeLabel::read(bytes),
        _ => None,
    }
}
