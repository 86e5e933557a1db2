//! The sink that copies.
ghost use Rattle.std.specs.Prelude.{◌≡◌, IsOk, OnOk, Some, true};
ghost use Rattle.tape.specs.Failures.{Steps};
ghost use Rattle.tape.specs.Tape.{IsRecord};
ghost use Rattle.tape.specs.Tape.PlainEntry.{Mark, Record};
ghost use Rattle.tape.specs.RecordFile.{image_of};
ghost use Rattle.rdump_net.specs.Sink.SinkCall.{Label};
ghost use Rattle.rdump_fetch.specs.Copy.{IsCopyAdded, PlainCopy, copy_kind, with_bytes};
ghost use Rattle.rdump_fetch.specs.Sink.{CopyStep, IsCopyOf};

use crate::CopyFile;
use crate::fault::FetchFault;
use dump_run::VolumeLabel;
use rdump_net::{SinkStopped, Verdict, VolumeSink};
use std::io::{self, ErrorKind};
use std::marker::Model;
use tape::is_record;

/// A mark's length in a record file.
const MARK_LENGTH: u32 = 0;

/// The bytes of a record's two lengths.
const RECORD_FRAME: u64 = 8;

/// The bytes of a mark.
const MARK_SIZE: u64 = 4;

/// A volume that is copied.
#[derive(Drop)]
pub struct CopiedVolume {
    /// The label.
    pub label: VolumeLabel,
    /// How many blocks it has.
    pub blocks: u64,
    /// How many bytes each block has; 0 if there is no block.
    pub block_bytes: usize,
    /// How many bytes the copy has.
    pub bytes: u64,
}

impl CopiedVolume {
    fn new(label: VolumeLabel, bytes: usize) -> CopiedVolume {
        CopiedVolume {
            label,
            blocks: 0,
            block_bytes: 0,
            bytes: RECORD_FRAME.saturating_add(bytes as u64),
        }
    }

    fn count(&mut self, bytes: usize) {
        self.blocks = self.blocks.saturating_add(1);
        self.block_bytes = bytes;
        let size = RECORD_FRAME.saturating_add(bytes as u64);
        self.bytes = self.bytes.saturating_add(size);
    }

    fn count_mark(&mut self) {
        self.bytes = self.bytes.saturating_add(MARK_SIZE);
    }
}

/// A sink that copies each reel into a `CopyFile`.
///
/// It accepts a volume only if its first record is a label, and if all blocks have the same length,
/// 1 to 262,144 bytes. Contracts see only the file.
#[derive(Drop)]
pub struct FetchSink<F: CopyFile> {
    file: F,
    volume: Option<CopiedVolume>,
    is_complete: bool,
    fault: Option<FetchFault>,
}

impl<F: CopyFile> Model for FetchSink<F> {
    ghost Value = { F };

    ghost coded = { F.code };

    ghost view = { λ s. s.file };
}

impl<F: CopyFile> FetchSink<F> {
    /// Makes a sink that copies reels into this file. It makes no call of the file.
    pub fn new(file: F) -> FetchSink<F>
        ensures { result ≡ file }
    {
        FetchSink {
            file,
            volume: None,
            is_complete: false,
            fault: None,
        }
    }

    /// Returns the file.
    pub fn file(&self) -> &F
        // The types allow no other body, so no wrong body is tried.
        ensures { result.now ≡ self.now }
    {
        &self.file
    }

    /// Forgets the volume before, and why the sink stopped. It makes no call of the file.
    pub fn forget(&mut self)
        ensures { self.new ≡ self.old }
    {
        self.volume = None;
        self.is_complete = false;
        self.fault = None;
    }

    /// Ends the work on the copy, whether it is kept or not.
    pub fn leave(&mut self)
        ensures { (copy : PlainCopy) → F.kept self.old copy → F.kept self.new copy }
    {
        self.file.leave();
    }

    /// Returns the volume that is copied, if its label was read. If the copy could not be begun,
    /// the volume has no block.
    pub fn volume(&self) -> Option<&CopiedVolume> {
        self.volume.as_ref()
    }

    /// Whether the copy of the volume is kept.
    pub fn is_complete(&self) -> bool {
        self.is_complete
    }

    /// Returns why the sink stopped, if it did.
    pub fn fault(&self) -> Option<FetchFault> {
        self.fault
    }

    fn stop(&mut self, fault: FetchFault) -> SinkStopped
        ensures { self.new ≡ self.old }
    {
        self.fault = Some(fault);
        SinkStopped
    }

    fn accept(&mut self, bytes: &[u8]) -> Result<(), FetchFault>
        ensures { OnOk result (CopyStep (copy_kind F.holds F.synced F.placed F.kept) self.old self.new (Label bytes.now) true) }
    {
        let Some(label) = VolumeLabel::read(bytes) else {
            return Err(FetchFault::NoLabel);
        };
        if !is_record(bytes) {
            return Err(FetchFault::NoLabel);
        }
        let begun = self.begin(&label, bytes);
        self.volume = Some(CopiedVolume::new(label, bytes.len()));
        match begun {
            Ok(()) => Ok(()),
            Err(error) => Err(FetchFault::Failed(error)),
        }
    }

    fn begin(&mut self, label: &VolumeLabel, bytes: &[u8]) -> io::Result<()>
        requires { IsRecord bytes.now }
        ensures { OnOk result (Steps F.holds self.old self.new (IsCopyOf label.now (Record bytes.now))) }
    {
        self.file.begin(label)?;
        self.add(bytes)
    }

    #[tactic(auto, unfolding(tape::specs::RecordFile::length_bytes))]
    fn add(&mut self, bytes: &[u8]) -> io::Result<()>
        requires { IsRecord bytes.now }
        ensures { OnOk result (Steps F.holds self.old self.new (IsCopyAdded (image_of (Record bytes.now)) true)) }
    {
        let length = (bytes.len() as u32).to_le_bytes();
        self.file.append_framed(&length, bytes)
    }

    fn add_block(&mut self, bytes: &[u8]) -> Result<(), FetchFault>
        ensures record_is { OnOk result (IsRecord bytes.now) }
        ensures added { OnOk result (Steps F.holds self.old self.new (IsCopyAdded (image_of (Record bytes.now)) true)) }
    {
        if !is_record(bytes) {
            return Err(FetchFault::Failed(ErrorKind::InvalidData.into()));
        }
        self.check_length(bytes.len())?;
        match self.add(bytes) {
            Ok(()) => Ok(()),
            Err(error) => Err(FetchFault::Failed(error)),
        }
    }

    fn check_length(&self, bytes: usize) -> Result<(), FetchFault> {
        match &self.volume {
            Some(volume) if volume.blocks > 0 && volume.block_bytes != bytes => {
                let before = volume.block_bytes;
                Err(FetchFault::OtherLength { bytes, before })
            }
            _ => Ok(()),
        }
    }

    #[tactic(auto, unfolding(tape::specs::RecordFile::length_bytes))]
    fn add_mark(&mut self) -> io::Result<()>
        ensures { OnOk result (Steps F.holds self.old self.new (IsCopyAdded (image_of Mark) true)) }
    {
        self.file.append_framed(&[], &MARK_LENGTH.to_le_bytes())
    }

    fn finish(&mut self) -> io::Result<()>
        ensures { IsOk result → (copy : PlainCopy) → F.holds self.old (Some copy) → F.kept self.new (with_bytes (image_of Mark) copy) }
    {
        self.add_mark()?;
        self.file.sync()?;
        self.file.place()?;
        self.file.sync_name()
    }
}

impl<F: CopyFile> VolumeSink for FetchSink<F> {
    ghost takes = { CopyStep (copy_kind F.holds F.synced F.placed F.kept) };

    fn label(&mut self, record: &[u8]) -> Verdict {
        match self.accept(record) {
            Ok(()) => Verdict::GoOn,
            Err(fault) => {
                let _ = self.stop(fault);
                Verdict::Stop
            }
        }
    }

    fn block(&mut self, _number: u64, bytes: &[u8]) -> Result<(), SinkStopped> {
        if let Err(fault) = self.add_block(bytes) {
            return Err(self.stop(fault));
        }
        if let Some(volume) = &mut self.volume {
            volume.count(bytes.len());
        }
        Ok(())
    }

    fn mark(&mut self) {}

    fn complete(&mut self) -> Result<(), SinkStopped> {
        match self.finish() {
            Ok(()) => {
                if let Some(volume) = &mut self.volume {
                    volume.count_mark();
                }
                self.is_complete = true;
                Ok(())
            }
            Err(error) => Err(self.stop(FetchFault::Failed(error))),
        }
    }
}
