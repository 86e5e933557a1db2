//! A file that is replaced as a whole.

use crate::lock_file::{LockFile, beside};
use crate::named::{named_file, sync_folder};
use crate::new_file::{put_text, try_new};
use crate::open_file::{PRIVATE_MODE, found_as, found_at, remove_own, taken};
use crate::read::{open_if_there, read_limited};
use crate::{FileFailed, WholeFile};
use std::alloc::Global;
use std::fs::File;
use std::io::{self, ErrorKind};
use std::path::PathBuf;
use std::rt::Files;
use std::thread;
use std::time::{Clock, Duration, Instant, SystemTime};

const WAIT_SECONDS: u64 = 10;

const BETWEEN_MILLIS: u64 = 5;

const SHARED_MODE: u32 = 0o666;

#[derive(Clone, Copy, PartialEq, Eq)]
pub(crate) enum Form {
    Shared,
    Held,
}

impl Form {
    pub(crate) fn mode(self) -> u32 {
        match self {
            Form::Shared => SHARED_MODE,
            Form::Held => PRIVATE_MODE,
        }
    }
}

/// The file that a path names, following links.
///
/// It is read and replaced under its lock, an empty file beside it with `.new` after its name. A
/// killed run may leave the lock, which the next one takes, and a new text in a file `.new.N`,
/// which nothing removes. If what has the name of the lock is not an empty regular file, it is not
/// touched, and the call fails with `AlreadyExists`. If the lock was taken away or written, nothing
/// is replaced, and the call fails with `Other`.
///
/// A file made by `new` is locked from a read until the text is in place or this is dropped. A run
/// waits for the lock for ten seconds, and then fails with `TimedOut`.
///
/// A file made by `held` is locked from the first read or replacement until it is removed or this
/// is dropped. If another run has the lock, a call fails with `WouldBlock`. Another file that took
/// its place meanwhile is not replaced and not removed.
#[derive(Drop)]
pub struct ReplacedFile<'a, R: Files<File = File> + Clock> {
    rt: &'a R,
    alloc: Global,
    path: &'a str,
    form: Form,
    locked: Option<Locked<'a, R>>,
    failure: Option<io::Error>,
}

#[derive(Drop)]
struct Locked<'a, R: Files<File = File>> {
    named: PathBuf,
    lock: Option<LockFile<'a, R>>,
    /// The file that was read or put in place.
    placed: Option<File>,
}

impl<'a, R: Files<File = File> + Clock> ReplacedFile<'a, R> {
    /// Returns the dumpdates file or the catalog at this path, which need not exist.
    pub fn new(rt: &'a R, alloc: Global, path: &'a str) -> Self {
        ReplacedFile::with_form(rt, alloc, path, Form::Shared)
    }

    /// Returns the checkpoint file at this path, which need not exist. Each file put in place has
    /// the mode 0600.
    pub fn held(rt: &'a R, alloc: Global, path: &'a str) -> Self {
        ReplacedFile::with_form(rt, alloc, path, Form::Held)
    }

    fn with_form(rt: &'a R, alloc: Global, path: &'a str, form: Form) -> Self {
        ReplacedFile {
            rt,
            alloc,
            path,
            form,
            locked: None,
            failure: None,
        }
    }

    /// Returns the error of the last call that failed.
    pub fn failure(&self) -> Option<&io::Error> {
        self.failure.as_ref()
    }

    /// Like `failure`, and drops the rest.
    pub fn into_failure(self) -> Option<io::Error> {
        let ReplacedFile { failure, .. } = self;
        failure
    }

    /// Takes the lock, creates a new file, and removes both. Returns the error if that fails, and
    /// none if another run has the lock.
    pub fn find_fault(&self) -> Option<io::Error> {
        self.try_replacing().err()
    }

    fn try_replacing(&self) -> io::Result<()> {
        match self.try_lock()? {
            Some(locked) => try_new(self.rt, self.alloc, &locked.named, self.form),
            None => Ok(()),
        }
    }

    /// Returns the path of the lock, if a regular file that is not empty is there: no `rdump` left
    /// it.
    ///
    /// Fails only if an allocation fails. After any other error it returns none.
    pub fn find_unknown_new(&self) -> io::Result<Option<String>> {
        match self.unknown_new() {
            Err(error) if error.kind() != ErrorKind::OutOfMemory => Ok(None),
            found => found,
        }
    }

    fn unknown_new(&self) -> io::Result<Option<String>> {
        let named = named_file(self.rt, self.alloc, self.path)?;
        let path = beside(self.alloc, named.as_path())?;
        match found_at(self.rt, path.as_str())? {
            Some(found) if found.is_file() && found.len() > 0 => Ok(Some(path)),
            _ => Ok(None),
        }
    }

    /// Returns the time of the last write to the file that was read or put in place, if it is still
    /// locked. Returns none if that was before 1970, or is unknown.
    pub fn modified(&self) -> Option<SystemTime> {
        let placed = self.locked.as_ref()?.placed.as_ref()?;
        placed.metadata().ok()?.modified().ok()
    }

    /// Removes the file that was read or put in place, if it is still locked. Releases the lock,
    /// and syncs the folder. Succeeds if there is no such file, or if it is gone.
    ///
    /// Fails if another file has its name by now.
    pub fn remove(&mut self) -> Result<(), FileFailed> {
        let removed = match self.locked.take() {
            Some(mut locked) => locked.remove(self.rt),
            None => Ok(()),
        };
        self.noted(removed)
    }

    fn noted<V>(&mut self, done: io::Result<V>) -> Result<V, FileFailed> {
        match done {
            Ok(value) => Ok(value),
            Err(error) => {
                self.failure = Some(error);
                Err(FileFailed)
            }
        }
    }

    /// Returns none if another run has the lock.
    fn try_lock(&self) -> io::Result<Option<Locked<'a, R>>> {
        let named = named_file(self.rt, self.alloc, self.path)?;
        let mode = self.form.mode();
        let Some(lock) = LockFile::try_take(self.rt, self.alloc, named.as_path(), mode)? else {
            return Ok(None);
        };
        Ok(Some(Locked {
            named,
            lock: Some(lock),
            placed: None,
        }))
    }

    fn lock(&mut self) -> io::Result<Locked<'a, R>> {
        if let Some(locked) = self.locked.take() {
            return Ok(locked);
        }
        match self.form {
            Form::Shared => self.wait(),
            Form::Held => self.try_lock()?.ok_or(taken()),
        }
    }

    fn wait(&self) -> io::Result<Locked<'a, R>> {
        let began = Instant::now(self.rt)?;
        for _ in 0..u64::MAX {
            let is_last_try = began.elapsed(self.rt)?.as_secs() >= WAIT_SECONDS;
            if let Some(locked) = self.try_lock()? {
                return Ok(locked);
            }
            if is_last_try {
                break;
            }
            thread::sleep(self.rt, Duration::from_millis(BETWEEN_MILLIS));
        }
        let error = "its .new was locked for ten seconds";
        Err(io::Error::new(ErrorKind::TimedOut, error))
    }

    fn read_locked(&mut self, alloc: Global) -> io::Result<Option<Vec<u8>>> {
        let mut locked = self.lock()?;
        let bytes = locked.read(self.rt, alloc);
        self.locked = Some(locked);
        bytes
    }

    fn put(&mut self, text: &[u8]) -> io::Result<()> {
        let mut locked = self.lock()?;
        let put = locked.put(self.rt, self.alloc, self.form, text);
        if self.form == Form::Held {
            self.locked = Some(locked);
        }
        put
    }
}

impl<'a, R: Files<File = File>> Locked<'a, R> {
    fn read(&mut self, rt: &R, alloc: Global) -> io::Result<Option<Vec<u8>>> {
        let Some(mut file) = open_if_there(rt, self.path())? else {
            return Ok(None);
        };
        let bytes = read_limited(alloc, &mut file)?;
        self.placed = Some(file);
        Ok(Some(bytes))
    }

    /// The lock of a shared file is released before the folder is synced: others need not wait for
    /// that.
    fn put(&mut self, rt: &R, alloc: Global, form: Form, text: &[u8]) -> io::Result<()> {
        if form == Form::Held {
            self.check_place(rt)?;
        }
        let placed = match &self.lock {
            Some(lock) => put_text(lock, alloc, &self.named, form, text)?,
            None => return Err(taken()),
        };
        self.placed = Some(placed);
        if form == Form::Shared {
            self.lock = None;
        }
        let _ = sync_folder(rt, &self.named);
        Ok(())
    }

    fn remove(&mut self, rt: &R) -> io::Result<()> {
        let Some(placed) = self.placed.take() else {
            return Ok(());
        };
        if remove_own(rt, self.path(), &placed)? {
            self.lock = None;
            let _ = sync_folder(rt, &self.named);
            return Ok(());
        }
        self.check_place(rt)
    }

    /// Fails with `WouldBlock` if another file has the name by now.
    fn check_place(&self, rt: &R) -> io::Result<()> {
        let is_ours = match &self.placed {
            Some(placed) => found_as(rt, self.path(), placed)?.is_some(),
            None => false,
        };
        if is_ours || found_at(rt, self.path())?.is_none() {
            return Ok(());
        }
        Err(taken())
    }

    fn path(&self) -> &str {
        self.named.as_path().as_str()
    }
}

impl<'a, R: Files<File = File> + Clock> WholeFile for ReplacedFile<'a, R> {
    ghost gives = { λ _ _ _. Unit {0} };

    ghost takes = { λ _ _ _ _. Unit {0} };

    fn read(&mut self, alloc: Global) -> Result<Option<Vec<u8>>, FileFailed> {
        let read = self.read_locked(alloc);
        self.noted(read)
    }

    /// Succeeds once the new file has the name, even if the sync of the folder fails.
    fn replace(&mut self, text: &[u8]) -> Result<(), FileFailed> {
        let put = self.put(text);
        self.noted(put)
    }
}
