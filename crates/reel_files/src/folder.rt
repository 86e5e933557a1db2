//! Drives whose reels are files in folders.

ghost use Rattle.std.specs.Prelude.{◌≡◌, ◌≤◌, ◌<◌, ◌↔◌, false, IfOk, IfSome, IsSome, IsErr, IsErrAnd, MatchResult, None, map, length};
ghost use Rattle.std.specs.IoError.{error_kind, raw_os_error};
ghost use Rattle.drives.specs.declared.fault.DriveFault.TheVariants.{Device, OutOfMemory};
ghost use Rattle.drives.specs.TapeLibrary.{TapeLibrary, IsDriveNamed};
ghost use Rattle.drives.specs.declared.holds.TheConstants.{DRIVE_LIMIT};
ghost use Rattle.reel_files.specs.Folders.{folder_library, folder_row, after_fault, row_at, IsFolderOf, IsRowNamed, IsFolderRefused, IsFolderMove, IsUntouched};

mod drive_state;
mod known;
mod line;
mod listing;
mod lock;
mod look;
mod moving;
mod refusal;
mod refused_opens;
mod report;

use crate::{FileMedium, FolderSystem, Log, NoLog};
use drive_state::{FolderDriveState, OpenedReel};
use drives::{DriveFault, OpenRefusal, Stacks};
use known::FileId;
use look::{clash_of, look_at, look_at_next, look_between};
use moving::Moved;
use refusal::Refusal;
pub use refused_opens::RefusedOpens;
use std::alloc::{AllocError, Global};
use std::fs::File;
use std::io::{self, ErrorKind};
use std::marker::Model;
use tape::FileReel;

const NO_REEL: &str = ": put one into its folder";

/// The name of a drive and the path of its stack's folder.
#[derive(Clone, Copy)]
pub struct FolderDrive<'a> {
    pub name: &'a str,
    pub folder: &'a str,
}

/// A folder that cannot be used.
#[derive(Clone, Copy)]
pub struct FolderFault<'a> {
    /// The path of the folder, as it was given.
    pub folder: &'a str,
    pub reason: io::Error,
}

/// Drives whose reels are record files in folders, with a folder as the bin.
///
/// A stack is the regular files of its folder, ordered by the bytes of their names. Folders, links,
/// and names that begin with a dot are not reels. Each latch lists the folder again, and locks the
/// file with the system's advisory lock.
///
/// All folders must be on one file system, since a move copies nothing.
#[derive(Drop)]
pub struct FolderStacks<R: FolderSystem, L: Log + Drop> {
    rt: R,
    log: L,
    refused_opens: RefusedOpens,
    drives: Vec<FolderDriveState>,
    bin: String,
    capacity: u64,
    failures: u64,
}

impl<R: FolderSystem, L: Log + Drop> Model for FolderStacks<R, L> {
    ghost use Rattle.std.specs.Prelude.{string_bytes};
    ghost use Rattle.reel_files.specs.Folders.{FolderLibrary, folder_library};

    ghost Value = { FolderLibrary };

    ghost view = { λ s. folder_library s.drives.items (string_bytes s.bin) s.capacity s.failures };
}

impl<R: FolderSystem> FolderStacks<R, NoLog> {
    /// Returns the stacks of 1 to `DRIVE_LIMIT` given drives. `bin` is the folder of the bin, and
    /// `capacity` that of each reel in bytes. Reads no folder. If several drives have the same
    /// name, the first is used. Fails only if an allocation fails.
    pub fn open(
        rt: R,
        drives: &[FolderDrive<'_>],
        bin: &str,
        capacity: u64,
    ) -> Result<FolderStacks<R, NoLog>, AllocError>
        requires some { 1 ≤ length drives.now }
        requires few { length drives.now ≤ DRIVE_LIMIT }
        ensures drives { IfOk result (λ opened. opened
            ≡ folder_library (map (λ d. folder_row d.name.now d.folder.now false) drives.now) bin.now capacity 0) }
        ensures count { IfOk result (λ opened. length opened.rows ≡ length drives.now) }
    {
        FolderStacks::with_log(rt, drives, bin, capacity, NoLog)
    }
}

impl<R: FolderSystem, L: Log + Drop> FolderStacks<R, L> {
    /// Like `open`, with a log of what is done with the reels.
    pub fn with_log(
        rt: R,
        drives: &[FolderDrive<'_>],
        bin: &str,
        capacity: u64,
        log: L,
    ) -> Result<FolderStacks<R, L>, AllocError>
        requires some { 1 ≤ length drives.now }
        requires few { length drives.now ≤ DRIVE_LIMIT }
        ensures drives { IfOk result (λ opened. opened
            ≡ folder_library (map (λ d. folder_row d.name.now d.folder.now false) drives.now) bin.now capacity 0) }
        ensures count { IfOk result (λ opened. length opened.rows ≡ length drives.now) }
    {
        let drives = drive_states_of(rt.alloc(), drives)?;
        let bin = String::from_str(rt.alloc(), bin)?;
        Ok(FolderStacks {
            rt,
            log,
            refused_opens: RefusedOpens::new(),
            drives,
            bin,
            capacity,
            failures: 0,
        })
    }

    /// Returns the first folder that is missing, is not a folder, cannot be read, or does not
    /// permit new files. It checks the stacks' folders in order, then the bin's. The owner's
    /// permission to write counts if the user owns the folder, and anybody's for root or an unknown
    /// user. Otherwise that of the group or of others counts.
    ///
    /// It then returns the first drive's folder that
    /// - is also the bin's, or that of an earlier drive, even if the paths differ,
    /// - is on another file system or mount than the bin's, or
    /// - is on a mount that allows no writes.
    ///
    /// It changes nothing in the folders. If an allocation fails, the reason has the kind
    /// `OutOfMemory` and no error code of the system.
    pub fn find_fault(&self) -> Option<FolderFault<'_>>
        // Only tests show which faults it finds.
        ensures { IfSome result (λ fault. IsFolderOf self.now fault.folder.now) }
    {
        let mut seen = Vec::new(self.rt.alloc());
        for chosen in &self.drives {
            let folder = chosen.folder();
            if let Err(reason) = look_at_next(&self.rt, folder, &mut seen) {
                return Some(FolderFault { folder, reason });
            }
        }
        let folder = self.bin.as_str();
        match look_at(&self.rt, folder) {
            Ok(bin) => self.find_clash(&seen, bin),
            Err(reason) => Some(FolderFault { folder, reason }),
        }
    }

    fn find_clash(&self, seen: &[FileId], bin: FileId) -> Option<FolderFault<'_>>
        ensures { IfSome result (λ fault. IsFolderOf self.now fault.folder.now) }
    {
        for (drive, chosen) in self.drives.iter().enumerate() {
            let clash = match clash_of(seen, drive, bin) {
                None => look_between(&self.rt, chosen.folder(), self.bin.as_str()).err(),
                clash => clash,
            };
            if let Some(reason) = clash {
                return Some(FolderFault {
                    folder: chosen.folder(),
                    reason,
                });
            }
        }
        None
    }

    /// Opens and locks the file of the reel to latch. Logs that, or the failure, but not `None`.
    fn find(&self, drive: usize) -> io::Result<Option<OpenedReel>>
        requires { drive < length self.now.rows }
        ensures free { MatchResult result (λ found. IsSome found → (row_at self.now drive).latched ≡ false) (λ _. (row_at self.now drive).latched ≡ false) }
    {
        let chosen = &self.drives[drive];
        match chosen.find(&self.rt, self.bin.as_str(), &self.log) {
            Ok(Some(found)) => {
                self.refused_opens.clear();
                chosen.opened(&found).write_to(&self.log);
                Ok(Some(found))
            }
            Ok(None) => Ok(None),
            Err(refusal) => {
                self.refused_opens
                    .write(&chosen.refused(&refusal), &self.log);
                Err(refusal.reason)
            }
        }
    }

    /// Moves the latched reel's file to the bin, and logs the result.
    fn take_off(&mut self, drive: usize, medium: &FileMedium) -> Result<(), DriveFault>
        requires { drive < length self.old.rows }
        ensures { IsFolderMove self.old drive medium.now result self.new }
    {
        let chosen = &mut self.drives[drive];
        let moved = chosen.take_off(&self.rt, self.bin.as_str(), medium);
        chosen.moved(&moved, medium).write_to(&self.log);
        match moved {
            Ok(Moved::Done(_)) => {
                chosen.note(None);
                Ok(())
            }
            Ok(Moved::NameTaken) => Err(DriveFault::NameTaken),
            Err(_) => Err(self.fail()),
        }
    }

    /// Counts a failed latch, unless an allocation failed.
    fn refuse(&mut self, error: io::Error) -> DriveFault
        ensures refused { IsFolderRefused self.old result self.new }
        ensures memory { result ≡ OutOfMemory ↔ (error_kind error ≡ ErrorKind.OutOfMemory) × (raw_os_error error ≡ None) }
    {
        if error.kind() == ErrorKind::OutOfMemory && error.raw_os_error().is_none() {
            DriveFault::OutOfMemory
        } else {
            self.fail()
        }
    }

    fn fail(&mut self) -> DriveFault
        ensures fault { result ≡ Device }
        ensures counted { self.new ≡ after_fault self.old }
    {
        self.failures = self.failures.saturating_add(1);
        DriveFault::Device
    }
}

impl<R: FolderSystem, L: Log + Drop> Stacks for FolderStacks<R, L> {
    ghost use Rattle.reel_files.specs.Folders.{IsFolderCall};

    type Reel = FileReel<FileMedium>;

    ghost holds = { λ _ _. ⊥ };

    ghost drives = { λ s. length s.rows };

    ghost failures = { λ s. s.failures };

    ghost can_fail = { λ _. Unit {0} };

    ghost makes = { λ old new call. IsFolderCall old new call };

    fn drive(&self, name: &[u8]) -> Option<usize>
        ensures below { IfSome result (λ d. d < length self.now.rows) }
        ensures named { (s : TapeLibrary) → ⊥ → IsDriveNamed name.now s result }
        ensures found { IsRowNamed name.now self.now result }
    {
        self.drives.iter().position(|chosen| chosen.is_named(name))
    }

    /// Opens and locks the first regular file of the stack's folder, to read and to append. If the
    /// system only allows reads, or the bin has another file with its name, it is opened read-only.
    ///
    /// If the bin has this same file, its move was interrupted. Its name in the stack is removed
    /// then, and the next file is latched.
    ///
    /// Fails with `NoReel`, `OutOfMemory` and `Device`. `Device` is also returned if
    /// - such a move cannot be finished, or 100 of them were finished in this latch,
    /// - a name in the folder is not UTF-8 and does not begin with a dot,
    /// - another handle has locked the file, or
    /// - in each of 100 listings a name was gone, or the path led to another file than was listed.
    fn latch(&mut self, drive: usize) -> Result<FileReel<FileMedium>, DriveFault> {
        match self.find(drive) {
            Ok(Some(found)) => {
                let chosen = &mut self.drives[drive];
                chosen.note(Some(found.latched));
                let medium = medium_of(found.file, found.reads_only);
                Ok(FileReel::open(medium, self.capacity))
            }
            Ok(None) => Err(DriveFault::NoReel),
            Err(error) => Err(self.refuse(error)),
        }
    }

    /// Syncs the file as `sync_at_close` does, if a reel is latched. A failure is logged but not
    /// counted. Then closes the file, which releases its lock.
    fn unlatch(&mut self, drive: usize, reel: FileReel<FileMedium>) {
        let chosen = &mut self.drives[drive];
        let report = chosen.close(&self.rt, self.bin.as_str(), reel.medium());
        drop(reel);
        if let Some(report) = report {
            report.write_to(&self.log);
        }
    }

    /// Syncs the file. Then a hard link, which never replaces anything, gives it its name in the
    /// bin, under the lock of the bin's folder. Then the bin's folder is synced, the name in the
    /// stack is removed, and the stack's folder is synced. If this last sync fails, the file is
    /// moved all the same. On a file system without hard links, the file is renamed. Allocates
    /// nothing.
    ///
    /// Fails with `NameTaken` if the bin has that name, and with `Device`. `Device` is also
    /// returned if
    /// - no reel is latched,
    /// - others hold the lock for about a second,
    /// - the name in the stack now belongs to another file than was latched,
    /// - a sync of the file has failed since it was last cut to length 0, or
    /// - the bin's folder cannot be synced, and the move could be undone.
    fn offline(
        &mut self,
        drive: usize,
        reel: FileReel<FileMedium>,
    ) -> Result<(), (FileReel<FileMedium>, DriveFault)> {
        match self.take_off(drive, reel.medium()) {
            Ok(()) => Ok(()),
            Err(fault) => Err((reel, fault)),
        }
    }

    fn failures(&self) -> u64 {
        self.failures
    }

    fn note(&self, line: &str) {
        self.refused_opens.clear();
        self.log.note(line);
    }

    fn note_refused(&self, name: &[u8], why: OpenRefusal) {
        self.refused_opens.log(&self.log, name, why, NO_REEL);
    }

    ghost single = { λ _ _ _ told _. absurd told };

    ghost once = { λ _ _ told. absurd told };

    ghost sized = { λ _ _ told. absurd told };
}

fn medium_of(file: File, is_read_only: bool) -> FileMedium
    ensures { IsUntouched result }
{
    if is_read_only {
        FileMedium::read_only(file)
    } else {
        FileMedium::new(file)
    }
}

fn drive_states_of(
    alloc: Global,
    drives: &[FolderDrive<'_>],
) -> Result<Vec<FolderDriveState>, AllocError>
    ensures { IfOk result (λ states. states.items ≡ map (λ d. folder_row d.name.now d.folder.now false) drives.now) }
{
    let mut states = Vec::new(alloc);
    for drive in drives {
        states.push(FolderDriveState::new(alloc, drive)?)?;
    }
    Ok(states)
}
