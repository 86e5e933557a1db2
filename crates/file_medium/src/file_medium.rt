//! A file as a medium. `at` is an offset in bytes.

ghost use Rattle.std.specs.Prelude.{◌≡◌, ◌≢◌, ◌++◌, ◌≤◌, ◌↔◌, false, true, IfOk, None, Ok, OnErr, OnOk, length};
ghost use Rattle.tape.specs.Failures.{raised};
ghost use Rattle.tape.specs.Medium.{IsMediumCall};
ghost use Rattle.tape.specs.Medium.MediumCall.{Len, ReadAt, Append, Cut};
ghost use Rattle.file_medium.specs.Files.{file_kind};

mod window;

use std::fs::File;
use std::io::{self, ErrorKind, IoSlice, Seek, SeekFrom};
use std::marker::Model;
use std::os::unix::fs::FileExt;
use tape::{Medium, MediumFailed};
use window::{LENGTH_SIZE, Window};

/// A medium that is a file of the operating system. Any call of it can fail.
///
/// The file must be open for the calls that are made. Nothing else may write to it or cut it
/// meanwhile, because the medium keeps its length and up to 4,096 bytes that it read.
#[derive(Drop)]
pub struct FileMedium {
    file: File,
    len: Option<u64>,
    window: Window,
    failed: Option<FailedCall>,
    truncations: u64,
    is_read_only: bool,
    is_written: bool,
}

#[derive(Clone, Copy)]
struct FailedCall {
    /// How many calls failed before it, at most the greatest `u64`.
    before: u64,
    reason: io::Error,
}

impl Model for FileMedium {
    ghost use Rattle.std.specs.Prelude.{unwrap_or};
    ghost use Rattle.std.specs.Option.{option_map};
    ghost use Rattle.tape.specs.Failures.{raised};
    ghost use Rattle.file_medium.specs.Files.{FileCount};

    ghost Value = { FileCount };

    ghost view = { λ m. record { failures = unwrap_or (option_map (λ f. raised f.before) m.failed) 0; truncations = m.truncations; written = m.is_written } };
}

impl FileMedium {
    /// Makes a medium of the given file. Makes no call of the system.
    ///
    /// A file to which bytes are appended must be open to append (`OpenOptions::append`).
    pub fn new(file: File) -> FileMedium
        ensures count { result.failures ≡ 0 }
        ensures begun { result.truncations ≡ 0 }
        ensures unwritten { result.written ≡ false }
    {
        FileMedium {
            file,
            len: None,
            window: Window::new(),
            failed: None,
            truncations: 0,
            is_read_only: false,
            is_written: false,
        }
    }

    /// Makes a read-only medium of the given file. Makes no call of the system.
    ///
    /// An append fails, and so does a cut that would shorten the file. The file is unchanged then,
    /// and the reason is `PermissionDenied`.
    pub fn read_only(file: File) -> FileMedium
        // Only a test shows that a write fails without a system call: `tests/checks/moves.py`.
        ensures count { result.failures ≡ 0 }
        ensures begun { result.truncations ≡ 0 }
        ensures unwritten { result.written ≡ false }
    {
        let mut medium = FileMedium::new(file);
        medium.is_read_only = true;
        medium
    }

    /// Returns the file, to lock it or to read its metadata.
    pub fn file(&self) -> &File {
        &self.file
    }

    /// Returns how many cuts to length 0 succeeded, including cuts of an empty file, at most the
    /// greatest `u64`.
    pub fn truncations(&self) -> u64
        ensures { result ≡ self.now.truncations }
    {
        self.truncations
    }

    /// Returns whether an append or a cut was tried, even one that failed.
    pub fn is_written(&self) -> bool
        ensures { result ≡ self.now.written }
    {
        self.is_written
    }

    /// Makes the system write the file's buffered data to the device. A failure is not counted.
    ///
    /// Fails with the system's error. The system reports only once what it could not write. So a
    /// sync after a failed one guarantees nothing about what was written before the failed one.
    pub fn sync(&self) -> io::Result<()> {
        self.file.sync_all()
    }

    /// Returns the error of the last `Medium` call that failed, or `None` if none has failed.
    pub fn last_error(&self) -> Option<io::Error>
        // Only a test shows which error this is: `tests/checks/log.py`.
        ensures { result ≡ None ↔ self.now.failures ≡ 0 }
    {
        match &self.failed {
            None => None,
            Some(failed) => Some(failed.reason),
        }
    }

    /// Counts a failure and keeps its reason.
    fn count<T: Drop>(&mut self, found: io::Result<T>) -> Result<T, MediumFailed>
        ensures same { OnOk result (self.new ≡ self.old) }
        ensures failed { OnErr result (self.new ≡ record self.old { failures = raised self.old.failures }) }
        ensures value { IfOk result (λ x. found ≡ Ok x) }
    {
        match found {
            Ok(value) => Ok(value),
            Err(reason) => {
                self.window.clear();
                let before = self.failures();
                self.failed = Some(FailedCall { before, reason });
                Err(MediumFailed)
            }
        }
    }

    fn begin(&mut self)
        ensures { self.new ≡ record self.old { truncations = raised self.old.truncations } }
    {
        self.truncations = self.truncations.saturating_add(1);
    }

    fn check_writable(&self) -> io::Result<()> {
        if self.is_read_only {
            let words = "the reel may only be read";
            return Err(io::Error::new(ErrorKind::PermissionDenied, words));
        }
        Ok(())
    }

    /// Drops the kept length and bytes, before a call changes the file.
    fn forget(&mut self)
        ensures { self.new ≡ self.old }
    {
        self.len = None;
        self.window.clear();
    }

    /// Appends frame, bytes and frame to a file of the length `end`.
    fn write_at_end(&mut self, end: u64, frame: &[u8], bytes: &[u8]) -> Result<(), MediumFailed>
        ensures same { OnOk result (self.new ≡ self.old) }
        ensures failed { OnErr result (self.new ≡ record self.old { failures = raised self.old.failures }) }
    {
        self.forget();
        let written = self
            .check_writable()
            .and_then(|()| write_framed(&self.file, frame, bytes));
        self.count(written)?;
        self.len = offset_behind(end, frame, bytes);
        Ok(())
    }

    fn read_length(&mut self, at: u64, into: &mut [u8]) -> io::Result<usize>
        ensures same { length into.new ≡ length into.old }
        ensures bound { IfOk result (λ n. n ≤ length into.new) }
        ensures kept { self.new ≡ self.old }
    {
        let piece = self.window.piece_for(at);
        let before = at.saturating_sub(piece.at) as usize;
        let least = before.saturating_add(into.len());
        self.window.read(&self.file, piece, least)?;
        let found = self.window.rest(at);
        let count = found.len().min(into.len());
        into[..count].copy_from_slice(&found[..count]);
        Ok(count)
    }

    /// Fills `into` from the window if it has all these bytes. Returns whether it has.
    fn read_window(&self, at: u64, into: &mut [u8]) -> bool
        ensures { length into.new ≡ length into.old }
    {
        match self.window.rest(at).get(..into.len()) {
            Some(found) => {
                into.copy_from_slice(found);
                true
            }
            None => false,
        }
    }

    fn shorten(&mut self, len: u64) -> Result<(), MediumFailed>
        ensures same { OnOk result (self.new ≡ self.old) }
        ensures failed { OnErr result (self.new ≡ record self.old { failures = raised self.old.failures }) }
    {
        self.forget();
        let cut = self.check_writable().and_then(|()| self.file.set_len(len));
        self.count(cut)?;
        self.len = Some(len);
        Ok(())
    }
}

impl Medium for FileMedium {
    ghost holds = { λ _ _. ⊥ };

    ghost failures = { λ m. m.failures };

    ghost can_fail = { λ _. Unit {0} };

    ghost spare = { λ _. 0 };

    fn len(&mut self) -> Result<u64, MediumFailed>
        ensures call { IsMediumCall file_kind self.old (Len result) self.new }
        ensures same { OnOk result (self.new ≡ self.old) }
        ensures failed { OnErr result (self.new ≡ record self.old { failures = raised self.old.failures }) }
    {
        if let Some(len) = self.len {
            return Ok(len);
        }
        let found = length_of(&self.file);
        let len = self.count(found)?;
        self.len = Some(len);
        Ok(len)
    }

    fn read_at(&mut self, at: u64, into: &mut [u8]) -> Result<usize, MediumFailed>
        ensures call { IsMediumCall file_kind self.old (ReadAt at into.new result) self.new }
        ensures same { length into.new ≡ length into.old }
        ensures failed { OnErr result (self.new ≡ record self.old { failures = raised self.old.failures }) }
    {
        if self.read_window(at, into) {
            return Ok(into.len());
        }
        let found = if into.len() == LENGTH_SIZE {
            self.read_length(at, into)
        } else {
            fill(&self.file, at, into, into.len())
        };
        self.count(found)
    }

    fn append(&mut self, bytes: &[u8]) -> Result<(), MediumFailed>
        ensures call { IsMediumCall file_kind self.old (Append bytes.now result) self.new }
        ensures same { OnOk result (self.new ≡ record self.old { written = true }) }
        ensures failed { OnErr result (self.new ≡ record self.old { failures = raised self.old.failures; written = true }) }
    {
        self.is_written = true;
        let end = self.len()?;
        self.write_at_end(end, &[], bytes)
    }

    /// Writes in one call of the system, if that takes all of it.
    fn append_framed(&mut self, frame: &[u8], bytes: &[u8]) -> Result<(), MediumFailed>
        ensures call { IsMediumCall file_kind self.old (Append (frame.now ++ (bytes.now ++ frame.now)) result) self.new }
        ensures same { OnOk result (self.new ≡ record self.old { written = true }) }
        ensures failed { OnErr result (self.new ≡ record self.old { failures = raised self.old.failures; written = true }) }
    {
        self.is_written = true;
        let end = self.len()?;
        self.write_at_end(end, frame, bytes)
    }

    fn cut(&mut self, len: u64) -> Result<(), MediumFailed>
        ensures call { IsMediumCall file_kind self.old (Cut len result) self.new }
        ensures begun { OnOk result (len ≡ 0 → self.new ≡ record self.old { truncations = raised self.old.truncations; written = true }) }
        ensures same { OnOk result (len ≢ 0 → self.new ≡ record self.old { written = true }) }
        ensures failed { OnErr result (self.new ≡ record self.old { failures = raised self.old.failures; written = true }) }
    {
        self.is_written = true;
        if self.len()? > len {
            self.shorten(len)?;
        }
        if len == 0 {
            self.begin();
        }
        Ok(())
    }

    fn failures(&self) -> u64 {
        match &self.failed {
            None => 0,
            Some(failed) => failed.before.saturating_add(1),
        }
    }

    ghost single = { λ _ _ _ told _. absurd told };

    ghost bounded = { λ _ _ told. absurd told };
}

/// For anything but a regular file, such as a block device, this is the offset of its end.
fn length_of(mut file: &File) -> io::Result<u64> {
    let found = file.metadata()?;
    if found.is_file() {
        return Ok(found.len());
    }
    file.seek(SeekFrom::End(0))
}

fn offset_behind(at: u64, frame: &[u8], bytes: &[u8]) -> Option<u64> {
    let within = at.checked_add(frame.len() as u64)?;
    let behind = within.checked_add(bytes.len() as u64)?;
    behind.checked_add(frame.len() as u64)
}

/// Writes frame, bytes and frame to a file that is open to append. Repeats an interrupted call.
///
/// Fails with the system's error, or with `WriteZero` if the system takes nothing.
fn write_framed(file: &File, frame: &[u8], bytes: &[u8]) -> io::Result<()> {
    let frame = IoSlice::new(frame);
    let mut parts = [frame, IoSlice::new(bytes), frame];
    let mut rest = parts.as_mut_slice();
    // Drops parts that have no bytes.
    IoSlice::advance_slices(&mut rest, 0);
    for _ in 0..u64::MAX {
        if rest.is_empty() {
            return Ok(());
        }
        match file.write_vectored(rest) {
            Ok(0) => return Err(io::Error::from(ErrorKind::WriteZero)),
            Ok(count) => IoSlice::advance_slices(&mut rest, count),
            Err(error) if error.kind() == ErrorKind::Interrupted => {}
            Err(error) => return Err(error),
        }
    }
    Err(io::Error::from(ErrorKind::Interrupted))
}

/// Reads from offset `at` on, until at least `least` bytes are there, the buffer is full or the
/// file ends. Returns how many. Repeats an interrupted call.
fn fill(file: &File, at: u64, into: &mut [u8], least: usize) -> io::Result<usize>
    ensures bound { IfOk result (λ n. n ≤ length into.new) }
    ensures same { length into.new ≡ length into.old }
{
    let mut filled = 0;
    for _ in 0..u64::MAX {
        if filled >= least || filled >= into.len() {
            return Ok(filled);
        }
        let Some(next) = at.checked_add(filled as u64) else {
            return Ok(filled);
        };
        match file.read_at(&mut into[filled..], next) {
            Ok(0) => return Ok(filled),
            Ok(count) => filled += count,
            Err(error) if error.kind() == ErrorKind::Interrupted => {}
            Err(error) => return Err(error),
        }
    }
    Err(io::Error::from(ErrorKind::Interrupted))
}
