//! The start of a dump, before its first attempt.
ghost use Rattle.std.specs.Prelude.{◌≡◌, ◌↔◌, IfOk, None, false};
ghost use Rattle.dump_files.specs.Payload.{IsRunsPayload};

use crate::catalog_file::CatalogFile;
use crate::start_fault::StartFault;
use crate::warnings::{report_going_on, report_younger};
use catalog::{Catalog, CatalogFault};
use console::plain;
use dump_client::{Blocks, Client, ResumeFault, Run};
use dump_files::{
    DumpFile, DumpFiles, PayloadFile, SameFile, dumper_of, resume_dump, run_of, seconds_now,
};
use dump_run::Checkpoint;
use dumpdates::{Dates, DatesFault};
use linux_dates::ZonedLine;
use rdump_args::DumpLine;
use rdump_system::ClientSystem;
use rmt_wire::errno::ENOENT;
use std::alloc::Global;
use std::fs::{File, Metadata};
use std::io;
use std::os::unix::fs::FileTypeExt;
use tape::{Medium, MediumFailed};
use volume_check::Summed;
use whole_files::{
    FileFailed, FileId, NamedSpool, PayloadLook, ReplacedFile, SpoolFault, WholeFile, check_plain,
    named_spool_path, open_payload, read_or_empty, read_steady, spool_folder, spool_unnamed,
};

pub(crate) type Dumper<M> = Client<Summed<PayloadFile<M>>>;

/// The file of a checkpoint, which is held, and the checkpoint that it has, if any.
#[derive(Drop)]
pub(crate) struct HeldCheckpoint<'a, R: ClientSystem> {
    file: ReplacedFile<'a, R>,
    path: &'a str,
    checkpoint: Option<Checkpoint>,
}

/// A dump before its first attempt: its arguments, and what was found out about its files.
#[derive(Drop)]
pub(crate) struct Start<'a, R: ClientSystem> {
    pub rt: &'a R,
    /// The arguments. They have the date of the dump once the clock was asked.
    pub line: DumpLine<'a>,
    /// How many bytes the payload has.
    pub bytes: u64,
    /// The date of the dump that this one builds on, in seconds since 1970.
    pub since: u64,
    /// The payload's file when the dump began, if it is a regular file.
    pub look: Option<PayloadLook>,
    /// The latest date of the entries that the dump is to replace, in seconds since 1970. It is 0
    /// without such entries.
    pub replaced: u64,
    is_resumed: bool,
    /// Whether the payload was written to after the checkpoint from which the dump is resumed.
    is_younger: bool,
    /// Whether the payload is what standard input gives.
    pub is_piped: bool,
    /// Whether this run has read the payload into a file beside its checkpoint.
    pub has_new_spool: bool,
    /// The path of that file, also if an earlier run made it.
    pub spool_path: Option<String>,
    /// The files of the dump that were checked.
    files: DumpFiles,
}

impl<'a, R: ClientSystem> Start<'a, R> {
    pub(crate) fn new(rt: &'a R, line: &DumpLine<'a>) -> Self
        ensures { result.line ≡ line.now }
    {
        Start {
            rt,
            line: *line,
            bytes: 0,
            since: 0,
            look: None,
            replaced: 0,
            is_resumed: false,
            is_younger: false,
            is_piped: false,
            has_new_spool: false,
            spool_path: None,
            files: DumpFiles::new(rt.alloc()),
        }
    }

    /// Returns the dumpdates file, if the dump is to be entered there.
    pub(crate) fn dates(&self) -> Option<ReplacedFile<'a, R>>
        ensures { (result ≡ None) ↔ (self.now.line.update ≡ false) }
    {
        let line = &self.line;
        if line.update {
            Some(ReplacedFile::new(self.rt, self.rt.alloc(), line.dumpdates))
        } else {
            None
        }
    }

    /// Opens the payload. Returns its file, and whether it can be read at any offset during the
    /// dump: it has a length then.
    pub(crate) fn open(&mut self) -> Result<(File, bool), StartFault<'a>>
        ensures { self.new.line ≡ self.old.line }
    {
        let path = self.line.payload;
        let (file, found) = at(path, open_payload(self.rt, path))?;
        self.add_payload(&file, &found)?;
        Ok((file, is_lasting(&found)))
    }

    fn add_payload(&mut self, file: &File, found: &Metadata) -> Result<(), StartFault<'a>>
        ensures { self.new.line ≡ self.old.line }
    {
        let path = self.line.payload;
        self.look = at(path, PayloadLook::new(file, found))?;
        check_same(path, self.files.add_payload(found))
    }

    /// Reads standard input to its end into a file, and returns the file. If the dump keeps a
    /// checkpoint, the file has a name beside it, and is returned as a `NamedSpool` too. If there
    /// is a checkpoint, that file is the payload, and standard input is not read.
    pub(crate) fn spool(
        &mut self,
        held: Option<&HeldCheckpoint<'a, R>>,
    ) -> Result<(File, Option<NamedSpool<'a, R>>), StartFault<'a>>
        ensures { self.new.line ≡ self.old.line }
    {
        let (rt, alloc, line) = (self.rt, self.rt.alloc(), self.line);
        self.is_piped = true;
        let (file, spool) = match held {
            None => {
                let folder = spool_folder(line.spool, line.dumpdates);
                let (file, _) = spooled(
                    folder,
                    spool_unnamed(rt, alloc, folder, &mut rt.reader(), line.allow_empty),
                )?;
                (file, None)
            }
            Some(held) => {
                let path = at(held.path, named_spool_path(rt, alloc, held.path))?;
                self.check_spool(path.as_str())?;
                let (path, spool) = self.named_spool(held, path)?;
                self.has_new_spool = held.checkpoint.is_none();
                if !self.has_new_spool {
                    let path = plain(path.as_str());
                    let _ = eprintln!(rt;
                        "rdump: going on with {path}: standard input is not read"
                    );
                }
                self.spool_path = Some(path);
                (at(held.path, spool.file())?, Some(spool))
            }
        };
        let found = at(line.payload, file.metadata())?;
        self.add_payload(&file, &found)?;
        Ok((file, spool))
    }

    /// Returns the payload at this path, beside this checkpoint file. If it has no checkpoint, the
    /// payload is read from standard input.
    fn named_spool(
        &self,
        held: &HeldCheckpoint<'a, R>,
        path: String,
    ) -> Result<(String, NamedSpool<'a, R>), StartFault<'a>> {
        let (rt, alloc, may_be_empty) = (self.rt, self.rt.alloc(), self.line.allow_empty);
        let found = if held.checkpoint.is_none() {
            NamedSpool::make(rt, alloc, path.as_str(), &mut rt.reader(), may_be_empty).map(Some)
        } else {
            NamedSpool::find(rt, alloc, path.as_str()).map_err(SpoolFault::Spool)
        };
        match found {
            Ok(Some(spool)) => Ok((path, spool)),
            Ok(None) => Err(StartFault::LostSpool(path, held.path)),
            Err(fault) => Err(StartFault::NamedSpool(path, fault)),
        }
    }

    /// Reads a payload that has no length, to its end.
    pub(crate) fn read(&self, file: File) -> Result<Vec<u8>, StartFault<'a>> {
        let path = self.line.payload;
        match at(path, read_steady(self.rt.alloc(), file))? {
            Some(bytes) => Ok(bytes),
            None => Err(StartFault::Unfit(path, "its length changed while it was read")),
        }
    }

    pub(crate) fn blocks<M: Medium + Drop>(
        &mut self,
        medium: M,
    ) -> Result<PayloadFile<M>, StartFault<'a>>
        ensures same { self.new.line ≡ self.old.line }
        ensures sized { IfOk result (λ p. p.size ≡ self.old.line.block) }
    {
        match PayloadFile::open(medium, self.line.block) {
            Ok(payload) => {
                self.bytes = payload.len();
                Ok(payload)
            }
            Err(MediumFailed) => {
                Err(StartFault::Unfit(self.line.payload, "its length could not be read"))
            }
        }
    }

    /// Looks at the files besides the payload that the dump reads and writes, but for the
    /// checkpoint, and asks the clock.
    pub(crate) fn look(&mut self) -> Result<(), StartFault<'a>>
        ensures { self.new.line.block ≡ self.old.line.block }
    {
        self.look_at_dates()?;
        self.look_at_catalog()?;
        match self.line.date.or(seconds_now(self.rt)) {
            Some(date) => {
                self.line.date = Some(date);
                Ok(())
            }
            None => Err(StartFault::Unfit("the clock", "it tells no date")),
        }
    }

    /// Reads the dumpdates file, and notes the date on which the dump builds. If the dump is to be
    /// entered, also notes what its entry replaces.
    fn look_at_dates(&mut self) -> Result<(), StartFault<'a>>
        ensures { self.new.line ≡ self.old.line }
    {
        let (rt, alloc, line) = (self.rt, self.rt.alloc(), self.line);
        let path = line.dumpdates;
        check_same(path, self.files.add_dates(rt, alloc, path, line.update))?;
        if line.update {
            at(path, check_plain(rt, path))?;
        }
        let text = at(path, read_or_empty(rt, alloc, path))?;
        let dates = match Dates::read(alloc, &text) {
            Ok(dates) => dates,
            Err(DatesFault::OutOfMemory) => return Err(StartFault::OutOfMemory),
            Err(fault) => {
                let zoned = ZonedLine::find(alloc, &text, fault);
                return Err(StartFault::NoDates(path, fault, zoned));
            }
        };
        self.since = dates.base(line.fs, u8::try_from(line.level).unwrap_or(u8::MAX));
        if line.update {
            self.replaced = latest_date(&dates, line.fs, line.level);
            check_new(path, &ReplacedFile::new(rt, alloc, path))?;
        }
        Ok(())
    }

    /// Checks the catalog, if the dump keeps one: it can be read and replaced.
    fn look_at_catalog(&mut self) -> Result<(), StartFault<'a>>
        ensures { self.new.line ≡ self.old.line }
    {
        let (rt, alloc) = (self.rt, self.rt.alloc());
        let Some(path) = self.line.catalog else {
            return Ok(());
        };
        if path.is_empty() {
            // No file has this name, although its new file could be made.
            return Err(StartFault::System(path, io::Error::from_raw_os_error(ENOENT as i32)));
        }
        check_same(path, self.files.add_catalog(rt, alloc, path))?;
        at(path, check_plain(rt, path))?;
        self.read_catalog(path)?;
        let file = ReplacedFile::new(rt, alloc, path);
        check_new(path, &file)?;
        match file.find_fault() {
            None => Ok(()),
            Some(error) => Err(StartFault::Unwritable(path, error)),
        }
    }

    /// A file that does not exist has no lines.
    fn read_catalog(&self, path: &'a str) -> Result<Catalog, StartFault<'a>> {
        let text = at(path, read_or_empty(self.rt, self.rt.alloc(), path))?;
        match Catalog::read(self.rt.alloc(), &text) {
            Ok(catalog) => Ok(catalog),
            Err(CatalogFault::OutOfMemory) => Err(StartFault::OutOfMemory),
            Err(fault) => Err(StartFault::NoCatalog(path, fault)),
        }
    }

    /// Fails if a file of this path is also the dumpdates file or the catalog.
    fn check_spool(&self, path: &str) -> Result<(), StartFault<'a>> {
        let (dates, catalog) = (Some(self.line.dumpdates), self.line.catalog);
        self.check_other(path, dates, DumpFile::Dates)?;
        self.check_other(path, catalog, DumpFile::Catalog)
    }

    fn check_other(
        &self,
        path: &str,
        other_path: Option<&'a str>,
        other: DumpFile,
    ) -> Result<(), StartFault<'a>> {
        let (rt, alloc) = (self.rt, self.rt.alloc());
        let Some(other_path) = other_path else {
            return Ok(());
        };
        let spool = at(other_path, FileId::of_path(rt, alloc, path))?;
        let known = at(other_path, FileId::of_path(rt, alloc, other_path))?;
        let (Some(spool), Some(known)) = (spool, known) else {
            return Ok(());
        };
        if spool.is(&known) {
            let file = DumpFile::Payload;
            return Err(StartFault::Same(other_path, SameFile { file, other }));
        }
        Ok(())
    }

    pub(crate) fn run<M: Medium + Drop>(
        &self,
        payload: &PayloadFile<M>,
    ) -> Result<Run, StartFault<'a>>
        requires { payload.now.size ≡ self.now.line.block }
        ensures { IfOk result (λ run. IsRunsPayload run payload.now) }
    {
        match run_of(&self.line, self.line.date.unwrap_or(0), self.since, payload) {
            Ok(run) => Ok(run),
            Err(fault) => Err(StartFault::Limit(fault)),
        }
    }

    /// Returns the file of the checkpoint, if the dump keeps one, with the checkpoint that it has.
    pub(crate) fn checkpoint(&mut self) -> Result<Option<HeldCheckpoint<'a, R>>, StartFault<'a>>
        ensures { self.new.line.block ≡ self.old.line.block }
    {
        let (rt, alloc) = (self.rt, self.rt.alloc());
        let Some(path) = self.line.checkpoint else {
            return Ok(None);
        };
        check_same(path, self.files.add_checkpoint(rt, alloc, path))?;
        let mut file = ReplacedFile::held(rt, alloc, path);
        let checkpoint = match file.read(alloc) {
            Ok(None) => None,
            Ok(Some(text)) => Some(checkpoint_in(alloc, path, &text)?),
            Err(FileFailed) => return Err(unread(path, file)),
        };
        check_new(path, &file)?;
        Ok(Some(HeldCheckpoint {
            file,
            path,
            checkpoint,
        }))
    }

    /// Returns the client that dumps the payload of this run, and the file of its checkpoint, if it
    /// keeps one. If there is a checkpoint, the dump is resumed from it, with the dates in it.
    pub(crate) fn client<M: Medium + Drop>(
        &mut self,
        run: Run,
        payload: PayloadFile<M>,
        held: Option<HeldCheckpoint<'a, R>>,
    ) -> Result<(Dumper<M>, Option<ReplacedFile<'a, R>>), StartFault<'a>>
        requires { IsRunsPayload run payload }
    {
        let (alloc, is_summed) = (self.rt.alloc(), self.line.catalog.is_some());
        let Some(held) = held else {
            return Ok((dumper_of(alloc, run, payload, is_summed)?, None));
        };
        let HeldCheckpoint {
            file,
            path,
            checkpoint,
        } = held;
        let Some(checkpoint) = checkpoint else {
            return Ok((dumper_of(alloc, run, payload, is_summed)?, Some(file)));
        };
        if !checkpoint.run().is_same_dump(&run) {
            return Err(StartFault::OfAnother(path, checkpoint, run));
        }
        self.line.date = Some(checkpoint.run().date());
        self.since = checkpoint.run().since();
        self.is_resumed = true;
        let Ok(client) = resume_dump(alloc, &run, checkpoint, payload, is_summed) else {
            return Err(StartFault::OutOfMemory);
        };
        report_going_on(self.rt, &client);
        self.is_younger = report_younger(self, path, file.modified())?;
        Ok((client, Some(file)))
    }

    /// Begins the dump in its catalog, if it keeps one, and returns that. A dump that is resumed
    /// does not begin again if exactly one line says that it began, or if it has counted volumes.
    pub(crate) fn catalog<B: Blocks>(
        &self,
        client: &Client<B>,
    ) -> Result<Option<CatalogFile<'a, R>>, StartFault<'a>> {
        let Some(path) = self.line.catalog else {
            return Ok(None);
        };
        let mut file = CatalogFile::new(self.rt, path, self.bytes);
        if client.counted().is_empty() {
            if self.is_resumed && has_begun(&self.read_catalog(path)?, client, self.bytes) {
                file.go_on(1);
            } else if let Err(why) = file.begin(client) {
                return Err(StartFault::Unentered(path, why));
            }
        } else {
            file.resume(&self.read_catalog(path)?, client);
        }
        Ok(Some(file))
    }

    /// Whether the payload changed since the dump began, or cannot be told not to have changed. A
    /// payload that is not a regular file is not looked at.
    pub(crate) fn has_changed(&self) -> bool {
        match &self.look {
            Some(look) => self.is_younger || !matches!(look.change(), Ok(None)),
            None => false,
        }
    }
}

fn at<'a, V>(path: &'a str, found: io::Result<V>) -> Result<V, StartFault<'a>> {
    match found {
        Ok(value) => Ok(value),
        Err(error) => Err(StartFault::System(path, error)),
    }
}

/// Whether a file has a length, and can be read at any offset during the dump.
fn is_lasting(found: &Metadata) -> bool {
    found.file_type().is_block_device() || (found.is_file() && found.len() > 0)
}

/// Fails if a file that was added to those of the dump, at this path, is also another one of them.
fn check_same<'a>(
    path: &'a str,
    added: io::Result<Option<SameFile>>,
) -> Result<(), StartFault<'a>> {
    match at(path, added)? {
        None => Ok(()),
        Some(same) => Err(StartFault::Same(path, same)),
    }
}

/// Fails if a file that no run left has the name of the new file for this one.
fn check_new<'a, R: ClientSystem>(
    path: &'a str,
    file: &ReplacedFile<'_, R>,
) -> Result<(), StartFault<'a>> {
    match at(path, file.find_unknown_new())? {
        None => Ok(()),
        Some(new) => Err(StartFault::Stranger(new)),
    }
}

fn spooled<'a, V>(folder: &'a str, found: Result<V, SpoolFault>) -> Result<V, StartFault<'a>> {
    match found {
        Ok(value) => Ok(value),
        Err(fault) => Err(StartFault::Spool(folder, fault)),
    }
}

fn checkpoint_in<'a>(
    alloc: Global,
    path: &'a str,
    text: &[u8],
) -> Result<Checkpoint, StartFault<'a>> {
    match Checkpoint::read(alloc, text) {
        Ok(checkpoint) => Ok(checkpoint),
        Err(ResumeFault::OutOfMemory) => Err(StartFault::OutOfMemory),
        Err(fault) => Err(StartFault::NoCheckpoint(path, fault)),
    }
}

fn unread<'a, R: ClientSystem>(path: &'a str, file: ReplacedFile<'_, R>) -> StartFault<'a> {
    match file.into_failure() {
        Some(error) => StartFault::System(path, error),
        None => StartFault::Unfit(path, "it could not be read"),
    }
}

/// Returns the latest date of the entries of this name and level, in seconds since 1970. Returns 0
/// without such entries.
fn latest_date(dates: &Dates, name: &str, level: u64) -> u64 {
    let mut latest = 0;
    for at in 0..dates.len() {
        if let Some(entry) = dates.get(at) {
            if entry.name == name && u64::from(entry.level) == level {
                latest = latest.max(entry.date);
            }
        }
    }
    latest
}

/// Whether exactly one line says that the client's dump began, with a payload of so many bytes.
fn has_begun<B: Blocks>(catalog: &Catalog, client: &Client<B>, bytes: u64) -> bool {
    let id = client.run().id();
    match catalog.run(id) {
        Some(run) => catalog.begun(id) == 1 && run.begun.bytes() == bytes,
        None => false,
    }
}
