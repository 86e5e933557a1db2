//! One drive whose stack is a folder.

ghost use Rattle.std.specs.Prelude.{◌≡◌, ◌≢◌, ◌⊎◌, false, true, Some, IfOk, IsSome, is_some, MatchBool, MatchResult};
ghost use Rattle.reel_files.specs.Folders.{folder_row};

use super::FolderDrive;
use super::known::InBin;
use super::listing::{Opened, open_first};
use super::moving::{Latched, MoveFlaw, Moved, NameLeft, ReelFile, finish_move};
use super::refusal::Refusal;
use super::report::Report;
use crate::{FileMedium, FolderSystem, Log, Syncs, sync_at_close, take_offline};
use std::alloc::{AllocError, Global};
use std::fs::File;
use std::io::{self, ErrorKind};
use std::marker::Model;

/// The greatest number of interrupted moves that one latch finishes.
const FINISH_TURNS: u32 = 100;

#[derive(Drop)]
pub(super) struct FolderDriveState {
    name: String,
    folder: String,
    latched: Option<ReelFile>,
    syncs: Syncs<Refusal>,
}

impl Model for FolderDriveState {
    ghost use Rattle.std.specs.Prelude.{string_bytes, is_some};
    ghost use Rattle.reel_files.specs.Folders.{FolderRow, folder_row};

    ghost Value = { FolderRow };

    ghost view = { λ r. record (folder_row (string_bytes r.name) (string_bytes r.folder) (is_some r.latched)) { failed = r.syncs } };
}

impl FolderDriveState {
    pub(super) fn new(
        alloc: Global,
        drive: &FolderDrive<'_>,
    ) -> Result<FolderDriveState, AllocError>
        ensures { IfOk result (λ made. made ≡ folder_row drive.now.name.now drive.now.folder.now false) }
    {
        Ok(FolderDriveState {
            name: String::from_str(alloc, drive.name)?,
            folder: String::from_str(alloc, drive.folder)?,
            latched: None,
            syncs: Syncs::new(),
        })
    }

    pub(super) fn is_named(&self, name: &[u8]) -> bool
        ensures { MatchBool result (self.now.name ≡ name.now) (self.now.name ≢ name.now) }
    {
        self.name.as_bytes() == name
    }

    pub(super) fn folder(&self) -> &str
        ensures { result.now ≡ self.now.folder }
    {
        self.folder.as_str()
    }

    /// Records which reel is latched, or that none is. Clears the record of failed syncs.
    pub(super) fn note(&mut self, latched: Option<ReelFile>)
        ensures { self.new ≡ folder_row self.old.name self.old.folder (is_some latched) }
    {
        self.latched = latched;
        self.syncs = Syncs::new();
    }

    pub(super) fn find<R: FolderSystem, L: Log>(
        &self,
        rt: &R,
        bin: &str,
        log: &L,
    ) -> Result<Option<OpenedReel>, Refusal>
        ensures free { MatchResult result (λ found. IsSome found → self.now.latched ≡ false) (λ _. self.now.latched ≡ false) }
    {
        if self.latched.is_some() {
            return Ok(None);
        }
        self.find_first(rt, bin, log)
    }

    /// Opens and locks the first file that the bin does not have. Finishes the interrupted moves of
    /// those before it.
    fn find_first<R: FolderSystem, L: Log>(
        &self,
        rt: &R,
        bin: &str,
        log: &L,
    ) -> Result<Option<OpenedReel>, Refusal> {
        let folder = self.folder.as_str();
        for _ in 0..FINISH_TURNS {
            let Some(opened) = open_first(rt, folder, bin)? else {
                return Ok(None);
            };
            let found = found_of(opened);
            if found.in_bin != InBin::SameFile {
                return Ok(Some(found));
            }
            let flaw = finish_move(rt, &found.latched, folder, bin)?;
            self.finished(&found, flaw).write_to(log);
        }
        let changed = io::Error::from(ErrorKind::StaleNetworkFileHandle);
        Err(Refusal::new(folder, "list", changed))
    }

    fn finished(&self, found: &OpenedReel, flaw: Option<MoveFlaw>) -> Report {
        let (drive, reel) = (self.name.as_str(), found.latched.name.as_str());
        let mut report = Report::warning(format_args!(
            "{drive}: {reel} moved to the bin: a stop had cut the move short"
        ));
        add_flaw(&mut report, flaw);
        report
    }

    pub(super) fn refused(&self, refusal: &Refusal) -> Report {
        let (place, reason) = (refusal.place(), refusal.reason);
        Report::warning(format_args!("{}: open refused: {place}{reason}", self.name))
    }

    pub(super) fn opened(&self, found: &OpenedReel) -> Report {
        let (drive, reel) = (self.name.as_str(), found.latched.name.as_str());
        let mut report = Report::new(format_args!("{drive}: {reel} opened"));
        if found.in_bin == InBin::Another {
            report.add_warning(", to read only: the bin has the name");
        } else if found.reads_only {
            report.add(", to read only");
        }
        report
    }

    /// Syncs the latched reel's file, and records that no reel is latched. Allocates nothing.
    pub(super) fn close<R: FolderSystem>(
        &mut self,
        rt: &R,
        bin: &str,
        medium: &FileMedium,
    ) -> Option<Report>
        ensures { self.new ≡ folder_row self.old.name self.old.folder false }
    {
        let report = self.sync(rt, bin, medium);
        self.note(None);
        report
    }

    fn sync<R: FolderSystem>(&mut self, rt: &R, bin: &str, medium: &FileMedium) -> Option<Report>
        ensures name { self.new.name ≡ self.old.name }
        ensures folder { self.new.folder ≡ self.old.folder }
    {
        let Some(file) = &self.latched else {
            return None;
        };
        let mut report = Report::new(format_args!("{}: {} closed", self.name, file.name));
        let mut latched = Latched {
            rt,
            file,
            medium,
            stack: self.folder.as_str(),
            bin,
        };
        match sync_at_close(&mut latched, &mut self.syncs) {
            Ok(true) => report.add(", synced"),
            Ok(false) => {}
            Err(refusal) => {
                report.add_warning(format_args!(", sync failed: {}", refusal.reason));
            }
        }
        add_last_error(&mut report, medium);
        Some(report)
    }

    /// Moves the latched reel's file to the bin. Fails also if no reel is latched. Allocates
    /// nothing.
    pub(super) fn take_off<R: FolderSystem>(
        &mut self,
        rt: &R,
        bin: &str,
        medium: &FileMedium,
    ) -> Result<Moved, Refusal>
        ensures latched { IfOk result (λ _. self.old.latched ≡ true) }
        ensures again { IfOk result (λ _. self.old.failed ≢ Some medium.now.truncations) }
        ensures noted { MatchResult result (λ _. self.new ≡ self.old)
            (λ _. (self.new ≡ self.old) ⊎ (self.new ≡ record self.old { failed = Some medium.now.truncations })) }
    {
        let stack = self.folder.as_str();
        let Some(file) = &self.latched else {
            let none = io::Error::from(ErrorKind::NotFound);
            return Err(Refusal::new(stack, "move", none));
        };
        let mut latched = Latched {
            rt,
            file,
            medium,
            stack,
            bin,
        };
        take_offline(&mut latched, &mut self.syncs)
    }

    pub(super) fn moved(&self, moved: &Result<Moved, Refusal>, medium: &FileMedium) -> Report {
        let (drive, reel) = (self.name.as_str(), self.latched_name());
        match moved {
            Ok(Moved::Done(flaw)) => {
                let mut report = Report::new(format_args!("{drive}: {reel} moved to the bin"));
                add_flaw(&mut report, *flaw);
                add_last_error(&mut report, medium);
                report
            }
            Ok(Moved::NameTaken) => {
                Report::warning(format_args!("{drive}: move refused: {reel}: the bin has the name"))
            }
            Err(refusal) => {
                let (place, reason) = (refusal.place(), refusal.reason);
                Report::warning(format_args!("{drive}: move refused: {place}{reason}"))
            }
        }
    }

    fn latched_name(&self) -> &str {
        match &self.latched {
            Some(file) => file.name.as_str(),
            None => "",
        }
    }
}

#[derive(Drop)]
pub(super) struct OpenedReel {
    pub(super) file: File,
    pub(super) reads_only: bool,
    in_bin: InBin,
    pub(super) latched: ReelFile,
}

fn found_of(opened: Opened) -> OpenedReel {
    let Opened {
        file,
        reads_only,
        name,
        path,
        bin_path,
        id,
        in_bin,
    } = opened;
    let latched = ReelFile {
        name,
        from: path,
        to: bin_path,
        id,
    };
    OpenedReel {
        file,
        reads_only,
        in_bin,
        latched,
    }
}

fn add_flaw(report: &mut Report, flaw: Option<MoveFlaw>) {
    match flaw {
        None => {}
        Some(MoveFlaw::Unsynced(reason)) => {
            report.add_warning(format_args!(", folder sync failed: {reason}"));
        }
        Some(MoveFlaw::NameLeft(NameLeft::Unsynced(reason))) => {
            report.add_warning(format_args!(
                ", its name in the stack was kept: the bin could not be synced: {reason}"
            ));
        }
        Some(MoveFlaw::NameLeft(NameLeft::NotRemoved(reason))) => {
            report.add_warning(format_args!(
                ", its name in the stack could not be removed: {reason}"
            ));
        }
    }
}

fn add_last_error(report: &mut Report, medium: &FileMedium) {
    if let Some(reason) = medium.last_error() {
        report.add_warning(format_args!(", a read or write failed: {reason}"));
    }
}
