//! Reels, read in place: record files, and the first reel of a drive's stack.
ghost use Rattle.dump_run.specs.Run.{IsDevice};
ghost use Rattle.rdump_args.specs.Rdump.{IsListedReels};

use crate::ListSystem;
use crate::compared_reel::{compare_reel, whole_label};
use crate::drive_reel::{DriveReel, read_drive};
use crate::fault::{ListFault, at, go_on};
use crate::mark_limit::MarkLimit;
use crate::progress::ListProgress;
use crate::reel::{ListedReel, Source};
use crate::reel_paths::{ReelPath, ReelPaths, open_plain};
use crate::shown_medium::ShownMedium;
use crate::undetermined::Undetermined;
use catalog::{Catalog, SumVerdict};
use file_medium::FileMedium;
use rdump_args::ListedReels;
use rdump_net::SocketPeer;
use remote_tape::{CallFault, TapeCause};
use std::alloc::AllocError;
use std::io::Write;
use std::time::Duration;
use tape::{Medium, MediumFailed};
use volume_check::{ReelContents, check_reel};

/// How many bytes of a record are read at once.
const ROOM: usize = 65536;

/// Reads reels, one after the other.
#[derive(Drop)]
pub(crate) struct Lister<'a, R: ListSystem, W: Write + Drop> {
    rt: &'a R,
    catalog: Option<&'a Catalog>,
    room: Box<[u8; ROOM]>,
    progress: Option<ListProgress<'a, R, W>>,
    reels: Vec<ListedReel>,
    has_failed: bool,
}

impl<'a, R: ListSystem, W: Write + Drop> Lister<'a, R, W> {
    /// Reels are compared with `catalog`, if given. `terminal` shows how far the list is. Allocates
    /// 65,536 bytes.
    pub(crate) fn new(
        rt: &'a R,
        catalog: Option<&'a Catalog>,
        terminal: Option<W>,
    ) -> Result<Self, AllocError> {
        let Ok(room) = Box::new(rt.alloc(), [0; ROOM]) else {
            return Err(AllocError);
        };
        Ok(Lister {
            rt,
            catalog,
            room,
            progress: ListProgress::at(rt, terminal),
            reels: Vec::new(rt.alloc()),
            has_failed: false,
        })
    }

    /// Prints why a reel cannot be read, and goes on.
    pub(crate) fn read(&mut self, reels: &ListedReels<'_>) -> Result<(), AllocError>
        requires { IsListedReels reels.now }
    {
        match reels {
            ListedReels::Paths(paths) => self.read_paths(paths),
            ListedReels::Drive {
                to,
                device,
                timeout,
            } => {
                let found = self.drive_reel(to, device, *timeout);
                self.keep(found.map(Some))
            }
        }
    }

    /// Clears the line of progress. Returns the reels, and whether all could be read.
    pub(crate) fn into_reels(mut self) -> (Vec<ListedReel>, bool) {
        self.clear();
        (self.reels, !self.has_failed)
    }

    fn read_paths(&mut self, paths: &[&str]) -> Result<(), AllocError> {
        let mut named = ReelPaths::new(self.rt);
        for path in paths {
            named.add(path)?;
        }
        let (files, are_found) = named.into_paths();
        self.has_failed = !are_found;
        for file in &files {
            let found = self.file_reel(file);
            self.keep(found)?;
        }
        Ok(())
    }

    /// Adds the reel, if it is there. Prints a fault, and goes on.
    fn keep(&mut self, found: Result<Option<ListedReel>, ListFault<'_>>) -> Result<(), AllocError> {
        if found.is_err() {
            self.clear();
        }
        match go_on(self.rt, found)? {
            Some(Some(reel)) => self.reels.push(reel)?,
            Some(None) => {}
            None => self.has_failed = true,
        }
        Ok(())
    }

    fn file_reel<'b>(&mut self, path: &'b ReelPath) -> Result<Option<ListedReel>, ListFault<'b>> {
        let (rt, named) = (self.rt, path.path.as_str());
        if !at(named, path.is_there(rt))? {
            return Ok(None);
        }
        let file = at(named, open_plain(rt, named))?;
        let mut shown = ShownMedium {
            medium: MarkLimit::new(FileMedium::new(file)),
            progress: self.progress.take(),
        };
        if let Some(progress) = &mut shown.progress {
            progress.begin_reel();
        }
        let read = check(&mut shown, &mut self.room, self.catalog);
        self.progress = shown.progress;
        let Ok((contents, sum)) = read else {
            return Err(ListFault::Unfit(named, "it could not be read"));
        };
        let source = if shown.medium.is_over() {
            Source::Undetermined(Undetermined::TooManyMarks)
        } else {
            Source::File
        };
        Ok(Some(ListedReel {
            path: String::from_str(rt.alloc(), named)?,
            contents,
            source,
            sum,
        }))
    }

    /// Reads the first reel on the stack of this drive. `timeout` limits each wait for the server.
    fn drive_reel<'b>(
        &mut self,
        to: &'b str,
        device: &'b str,
        timeout: Option<Duration>,
    ) -> Result<ListedReel, ListFault<'b>>
        requires { IsDevice device.now }
    {
        let (rt, alloc) = (self.rt, self.rt.alloc());
        let mut peer = SocketPeer::new(rt, to, timeout);
        let mut reel = DriveReel::new(self.catalog.is_some(), self.progress.take());
        let read = read_drive(alloc, &mut peer, device.as_bytes(), &mut reel);
        let (contents, hasher) = reel.into_contents();
        let (source, catalog) = match read {
            Ok(None) => (Source::Drive, self.catalog),
            Ok(Some(why)) => (Source::Undetermined(why), None),
            Err(fault) if fault.cause == TapeCause::NoReply(CallFault::OutOfMemory) => {
                return Err(ListFault::OutOfMemory);
            }
            Err(fault) => {
                return Err(ListFault::NoSession {
                    to,
                    device,
                    fault,
                    failure: peer.failure().copied(),
                });
            }
        };
        let sum = match (whole_label(&contents), hasher, catalog) {
            (Some(label), Some(hasher), Some(catalog)) => {
                Some(catalog.compare(label, &hasher.sum()))
            }
            _ => None,
        };
        Ok(ListedReel {
            path: String::from_str(alloc, device)?,
            contents,
            source,
            sum,
        })
    }

    /// Clears the line of progress.
    fn clear(&mut self) {
        if let Some(progress) = &mut self.progress {
            progress.clear();
        }
    }
}

fn check<M: Medium>(
    medium: &mut M,
    room: &mut [u8; ROOM],
    catalog: Option<&Catalog>,
) -> Result<(ReelContents, Option<SumVerdict>), MediumFailed> {
    match catalog {
        Some(catalog) => compare_reel(medium, room, catalog),
        None => Ok((check_reel(medium, room)?, None)),
    }
}
