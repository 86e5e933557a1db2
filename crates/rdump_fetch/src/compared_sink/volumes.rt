//! The calls of a comparing sink.
ghost use Rattle.std.specs.Prelude.{◌≡◌, ◌↔◌, IsTrue};
ghost use Rattle.rdump_fetch.specs.Comparing.{ComparedStep, IsAdded, IsBegun, IsComparedAs, IsRefused};

use crate::ComparedSink;
use catalog::SumVerdict;
use dump_run::VolumeLabel;
use rdump_net::{SinkStopped, Verdict, VolumeSink};
use std::mem;
use tape::is_record;
use volume_check::EntryHasher;

impl<S: VolumeSink> VolumeSink for ComparedSink<S> {
    ghost takes = { ComparedStep S.takes };

    fn label(&mut self, record: &[u8]) -> Verdict {
        self.begin(record);
        self.sink.label(record)
    }

    fn block(&mut self, number: u64, bytes: &[u8]) -> Result<(), SinkStopped> {
        self.add(bytes);
        self.sink.block(number, bytes)
    }

    fn mark(&mut self) {
        self.hasher.mark();
        self.sink.mark();
    }

    fn complete(&mut self) -> Result<(), SinkStopped> {
        self.verdict = self.compare();
        if is_refused(self.verdict) {
            return Err(SinkStopped);
        }
        self.sink.complete()
    }
}

impl<S: VolumeSink> ComparedSink<S> {
    fn begin(&mut self, record: &[u8])
        ensures same { self.new.sink ≡ self.old.sink }
        ensures begun { IsBegun self.old self.new «record».now }
    {
        self.verdict = None;
        self.label = VolumeLabel::read(record);
        self.hasher = EntryHasher::new();
        self.add(record);
    }

    /// Adds a record to the sum, if there is a catalog and the record has 1 to 262,144 bytes.
    fn add(&mut self, record: &[u8])
        ensures same { self.new ≡ record self.old { hasher = self.new.hasher } }
        ensures added { IsAdded self.old self.new «record».now }
    {
        if self.sums.is_some() && is_record(record) {
            self.hasher.record(record);
        }
    }

    fn compare(&mut self) -> Option<SumVerdict>
        ensures same { self.new ≡ record self.old { hasher = self.new.hasher } }
        ensures verdict { IsComparedAs self.old result }
    {
        let hasher = mem::replace(&mut self.hasher, EntryHasher::new());
        let sums = self.sums.as_ref()?;
        let label = self.label.as_ref()?;
        Some(sums.compare(label, &hasher.sum()))
    }
}

fn is_refused(verdict: Option<SumVerdict>) -> bool
    ensures { IsTrue result ↔ IsRefused verdict }
{
    match verdict {
        None | Some(SumVerdict::Equal) | Some(SumVerdict::Unknown) => false,
        Some(SumVerdict::Differs) | Some(SumVerdict::Anew) | Some(SumVerdict::Void) => true,
    }
}
