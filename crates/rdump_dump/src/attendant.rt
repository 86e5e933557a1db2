//! Attends a dump of the program: keeps its checkpoint, its catalog and its entry in dumpdates,
//! prints on standard error what happens, and answers the questions.

ghost use Rattle.whole_files.specs.WholeFile.{whole_file};
ghost use Rattle.rdump_net.specs.Observing.{entered_of};
ghost use Rattle.rdump_dump.specs.Dates.{AreEntriesMade, IsEntryMade, is_made};
ghost use Rattle.std.specs.Prelude.{◌≡◌};

use crate::asking::Asking;
use crate::catalog_file::{CatalogFile, Missing};
use crate::setback::{Failure, Obstacle, ObstacleReport};
use crate::start::Start;
use crate::unattended::Unattended;
use console::{CLEAR, plain};
use dump_client::{AttemptFault, Blocks, Client, VolumeCount};
use dump_files::{KeepFault, ProgressLine, UpdateFault, keep_checkpoint, update};
use dump_run::VolumeLabel;
use dumpdates::DatesFault;
use jiff::Timestamp;
use jiff::civil::Date;
use jiff::tz::TimeZone;
use rdump_net::{Answers, DumpObserver, Reply, Setback, SocketPeer, find_protection, look_at_reel};
use rdump_system::{ClientSystem, NO_DUMPDATES};
use refusals::{TapeRequest, request_of};
use remote_tape::{CallFault, TapeFault};
use rmt_wire::argument::is_device;
use std::alloc::Global;
use std::fmt::Display;
use std::io::{self, Write};
use std::thread;
use std::time::Duration;
use volume_check::Summed;
use whole_files::{FileFailed, NamedSpool, ReplacedFile, WholeFile};

/// After this many setbacks in a row, each further attempt first waits, if somebody answers.
const QUICK_SETBACKS: u32 = 2;

/// How long such an attempt waits, in seconds.
const WAIT_SECONDS: u64 = 1;

/// A file that remembers why its last call failed. A program has a `ReplacedFile`; the trait lets
/// contracts speak of a file whose bytes are known.
pub(crate) trait FailingFile: WholeFile {
    /// Returns the error of the last call that failed, or none if no call failed.
    fn failure(&self) -> Option<&io::Error>;
}

impl<R: ClientSystem> FailingFile for ReplacedFile<'_, R> {
    fn failure(&self) -> Option<&io::Error> {
        ReplacedFile::failure(self)
    }
}

/// The files that a dump keeps until it is over.
#[derive(Drop)]
pub(crate) struct Kept<'a, R: ClientSystem, F: WholeFile> {
    /// The dumpdates file, if the dump is to be entered there.
    pub dates: Option<F>,
    /// The file of the checkpoint, which is held, if the dump keeps one.
    pub checkpoint: Option<ReplacedFile<'a, R>>,
    /// The payload beside the checkpoint, if that is what standard input gave.
    pub spool: Option<NamedSpool<'a, R>>,
}

/// Its contracts say what becomes of the dumpdates file. They state nothing else of what is kept or
/// printed.
///
/// On a terminal, the line of progress is cleared before the messages of an attempt.
#[derive(Drop)]
pub(crate) struct Attendant<'s, 'a, R: ClientSystem, T: Write, F: WholeFile> {
    start: &'s Start<'a, R>,
    terminal: Option<T>,
    progress: Option<ProgressLine<'a, R, T>>,
    kept: Kept<'a, R, F>,
    catalog: Option<CatalogFile<'a, R>>,
    /// The connections that look at the reel.
    looks: SocketPeer<'a, R>,
    /// Whoever answers the questions, unless the dump answers them itself.
    operator: Answers<Asking<R::Reader, T>>,
    /// Answers the questions, if the dump answers them itself.
    unattended: Option<Unattended>,
    /// The request that was sent last, which is the one that a server refuses.
    asked: TapeRequest,
    /// Whether the next record of the attempt is the label.
    is_label_next: bool,
    /// Why the latest attempt failed or did not begin.
    setback: Option<Setback>,
    /// How many attempts in a row failed or did not begin.
    setbacks: u32,
}

impl<'s, 'a, R: ClientSystem, T: Write + Copy + Drop, F: FailingFile> Attendant<'s, 'a, R, T, F> {
    /// `terminal` is standard error, if that is a terminal.
    pub(crate) fn new(
        start: &'s Start<'a, R>,
        blocks: u32,
        kept: Kept<'a, R, F>,
        catalog: Option<CatalogFile<'a, R>>,
        terminal: Option<T>,
    ) -> Self {
        let (rt, line) = (start.rt, &start.line);
        Attendant {
            start,
            terminal,
            progress: terminal.map(|it| ProgressLine::new(rt, it, blocks)),
            kept,
            catalog,
            looks: SocketPeer::new(rt, line.to, line.timeout),
            operator: Answers::new(Asking::new(rt.reader(), terminal)),
            unattended: line.retry.map(|times| Unattended::new(times, line.pause)),
            asked: TapeRequest::Open,
            is_label_next: false,
            setback: None,
            setbacks: 0,
        }
    }

    /// Whether everything that the catalog is to have of the dump was entered.
    pub(crate) fn has_all(&self) -> bool {
        match &self.catalog {
            Some(catalog) => catalog.has_all(),
            None => true,
        }
    }

    fn say<M: Display + Drop>(&mut self, subject: &str, message: M)
        ensures { self.new.kept.dates ≡ self.old.kept.dates }
    {
        self.clear();
        let subject = plain(subject);
        let _ = eprintln!(self.start.rt; "rdump: {subject}: {message}");
    }

    /// Clears the line of progress.
    fn clear(&mut self)
        ensures { self.new.kept.dates ≡ self.old.kept.dates }
    {
        if let Some(terminal) = &mut self.terminal {
            let _ = terminal.write_all(CLEAR);
        }
    }

    fn note(&mut self, setback: Setback)
        ensures { self.new.kept.dates ≡ self.old.kept.dates }
    {
        self.setback = Some(setback);
        self.setbacks = self.setbacks.saturating_add(1);
    }

    /// Looks at the first reel of the drive, over a connection of its own. Returns why the dump
    /// must not write on it. Returns none if it may: the reel is empty, or begins with a label of
    /// the dump.
    fn find_obstacle(&mut self) -> Option<Obstacle>
        ensures { self.new.kept.dates ≡ self.old.kept.dates }
    {
        let line = &self.start.line;
        let device = line.device.as_bytes();
        if !is_device(device) {
            // A run has no such device, so this never happens. Without a look, no attempt is made.
            return Some(Obstacle::Unseen(TapeFault::unopened(CallFault::Botched)));
        }
        let front = match look_at_reel(self.start.rt.alloc(), &mut self.looks, device) {
            Ok(front) => front,
            Err(fault) => return Some(Obstacle::Unseen(fault)),
        };
        // The date is known by now. Without one, this takes one that no label has.
        let date = line.date.unwrap_or(u64::MAX);
        let protection = find_protection(&front, line.fs, line.level, date)?;
        Some(Obstacle::Protected(front, protection))
    }

    fn report_missing(&mut self, missing: Result<(), Missing>)
        ensures { self.new.kept.dates ≡ self.old.kept.dates }
    {
        if let (Err(missing), Some(catalog)) = (missing, &self.catalog) {
            let path = catalog.path();
            self.say(path, missing);
        }
    }

    /// Prints why the dump was not entered in dumpdates, or nothing if it is not finished.
    fn report_unentered(&self, fault: Option<UpdateFault>) {
        let Some(fault) = fault else {
            return;
        };
        let start = self.start;
        let (rt, path) = (start.rt, plain(start.line.dumpdates));
        let failure = match &self.kept.dates {
            Some(file) => file.failure(),
            None => None,
        };
        let _ = match (fault, failure) {
            (UpdateFault::Dates(DatesFault::OutOfMemory), _) => {
                eprintln!(rt; "rdump: {path}: out of memory")
            }
            (UpdateFault::Dates(_), _) => eprintln!(rt; "rdump: {path}: {NO_DUMPDATES}"),
            (_, Some(error)) => eprintln!(rt; "rdump: {path}: {error}"),
            (_, None) => eprintln!(rt; "rdump: {path}: it could not be read or replaced"),
        };
    }

    /// Removes the payload beside the checkpoint. Returns none if there is no such file.
    pub(crate) fn remove_spool(&self) -> Option<io::Result<()>> {
        let spool = self.kept.spool.as_ref()?;
        Some(spool.remove())
    }

    fn spool_path(&self) -> &'s str {
        let start = self.start;
        match &start.spool_path {
            Some(path) => path.as_str(),
            None => "",
        }
    }

    fn checkpoint_path(&self) -> &'a str {
        self.start.line.checkpoint.unwrap_or("")
    }
}

impl<'s, 'a, R: ClientSystem, T: Write + Copy + Drop, F: FailingFile, B: Blocks> DumpObserver<
    Summed<B>,
    SocketPeer<'a, R>,
> for Attendant<'s, 'a, R, T, F> {
    // The log of an attendant says what became of its dumpdates file.
    ghost logs = { λ first now log. AreEntriesMade (whole_file F.gives F.takes) first.kept.dates (entered_of log) now.kept.dates };

    ghost can_stop = { λ _. Unit {0} };

    fn may_begin(&mut self) -> bool {
        self.setback = None;
        if self.unattended.is_none() && self.setbacks >= QUICK_SETBACKS {
            thread::sleep(self.start.rt, Duration::from_secs(WAIT_SECONDS));
        }
        if !self.start.line.protect {
            return true;
        }
        let Some(obstacle) = self.find_obstacle() else {
            return true;
        };
        self.note(match &obstacle {
            Obstacle::Protected(..) => Setback::Protected,
            Obstacle::Unseen(fault) => Setback::Look(*fault),
        });
        self.clear();
        let line = &self.start.line;
        let (to, error) = (plain(line.to), self.looks.failure());
        let report = ObstacleReport {
            line,
            obstacle: &obstacle,
            error,
        };
        let _ = eprintln!(self.start.rt; "rdump: {to}: {report}");
        false
    }

    fn sent(&mut self, client: &Client<Summed<B>>, request: &[u8]) {
        let Some(asked) = request_of(request) else {
            return;
        };
        self.asked = asked;
        let Some(progress) = &mut self.progress else {
            return;
        };
        match asked {
            TapeRequest::Open => {
                let (volume, first) = client.checkpoint();
                progress.begin_volume(volume, first);
                self.is_label_next = true;
            }
            TapeRequest::Write | TapeRequest::LongWrite => {
                if self.is_label_next {
                    self.is_label_next = false;
                } else {
                    progress.show(client.run().block_bytes() as usize);
                }
            }
            _ => {}
        }
    }

    fn overwrites(&mut self, label: &VolumeLabel) {
        self.clear();
        if let Some(day) = day_of(label.date()) {
            let (name, level, volume) = (label.name(), label.level(), label.volume());
            let _ = eprintln!(self.start.rt;
                "this reel has: {name} level {level} {day}, volume {volume}"
            );
        }
    }

    fn failed(&mut self, peer: &SocketPeer<'a, R>, fault: AttemptFault) {
        self.note(Setback::Attempt(fault));
        if matches!(fault, AttemptFault::ShortWrite | AttemptFault::OutOfMemory) {
            return;
        }
        let failure = Failure {
            line: &self.start.line,
            fault,
            asked: self.asked,
            error: peer.failure(),
        };
        self.say(failure.subject(), failure);
    }

    fn counted(&mut self, client: &Client<Summed<B>>, count: VolumeCount) {
        self.setbacks = 0;
        if let Some(unattended) = &mut self.unattended {
            unattended.counted();
        }
        let entered = match &mut self.catalog {
            Some(catalog) => catalog.enter(client, count),
            None => Ok(()),
        };
        self.report_missing(entered);
    }

    fn keep(&mut self, client: &Client<Summed<B>>) -> bool {
        let (rt, path) = (self.start.rt, plain(self.checkpoint_path()));
        let Some(file) = &mut self.kept.checkpoint else {
            return true;
        };
        let kept = keep_checkpoint(rt.alloc(), file, client.run(), client.counted());
        let Err(fault) = kept else {
            return true;
        };
        let _ = match (fault, file.failure()) {
            (KeepFault::Unwritten, Some(error)) => eprintln!(rt; "rdump: {path}: {error}"),
            (fault, _) => eprintln!(rt; "rdump: {path}: {fault}"),
        };
        false
    }

    fn answer(&mut self) -> Reply {
        self.clear();
        let start = self.start;
        let Some(unattended) = &mut self.unattended else {
            // What standard input gives is the payload, and no answer.
            return match start.is_piped {
                true => Reply::Abandon,
                false => self.operator.answer(),
            };
        };
        if unattended.waits(start.rt, self.setback) {
            return Reply::Retry;
        }
        if self.kept.checkpoint.is_none() {
            self.say(
                start.line.to,
                "given up: without --checkpoint the dump is abandoned",
            );
            return Reply::Abandon;
        }
        let path = self.checkpoint_path();
        self.say(
            path,
            "given up, and this file stays: mend what is named above, leave the payload as it is, \
             and run the same command",
        );
        Reply::Leave
    }

    fn complete(&mut self, client: &Client<Summed<B>>) -> bool {
        let start = self.start;
        let entered = match &mut self.catalog {
            Some(catalog) => {
                let has_changed = catalog.is_open() && start.has_changed();
                catalog.finish(client, has_changed)
            }
            None => Ok(()),
        };
        self.report_missing(entered);
        self.has_all()
    }

    fn enter(&mut self, client: &Client<Summed<B>>) -> bool {
        let start = self.start;
        match enter_in(start.rt.alloc(), &mut self.kept.dates, client) {
            Ok(()) => true,
            Err(fault) => {
                self.report_unentered(fault);
                false
            }
        }
    }

    fn forget(&mut self) -> bool {
        let (rt, path) = (self.start.rt, plain(self.checkpoint_path()));
        // A checkpoint without its payload is reported, so the payload goes first.
        if let Some(Err(error)) = self.remove_spool() {
            let spool = plain(self.spool_path());
            let _ = eprintln!(rt; "rdump: {spool}: it could not be removed: {error}");
            return false;
        }
        let Some(file) = &mut self.kept.checkpoint else {
            return true;
        };
        let Err(FileFailed) = file.remove() else {
            return true;
        };
        let _ = match file.failure() {
            Some(error) => eprintln!(rt; "rdump: {path}: it could not be removed: {error}"),
            None => eprintln!(rt; "rdump: {path}: it could not be removed"),
        };
        false
    }
}

/// Enters the dump of a client in its dumpdates file, if it has one. Fails with none if the dump is
/// not finished, and otherwise with the reason.
fn enter_in<F: WholeFile, B: Blocks>(
    alloc: Global,
    dates: &mut Option<F>,
    client: &Client<B>,
) -> Result<(), Option<UpdateFault>>
    ensures { IsEntryMade (whole_file F.gives F.takes) client.now.at.run (is_made result) dates.old dates.new }
{
    let Some(file) = dates else {
        return Ok(());
    };
    let Some(entry) = client.finished() else {
        return Err(None);
    };
    match update(alloc, file, entry) {
        Ok(()) => Ok(()),
        Err(fault) => Err(Some(fault)),
    }
}

/// Returns the day of a date in seconds since 1970, in UTC.
fn day_of(date: u64) -> Option<Date> {
    let moment = Timestamp::from_second(i64::try_from(date).ok()?).ok()?;
    Some(moment.to_zoned(TimeZone::UTC).date())
}
