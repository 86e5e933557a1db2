//! A sink that compares volumes.
ghost use Rattle.std.specs.Prelude.{◌≡◌, None};
ghost use Rattle.std.specs.Borrow.{sem};
ghost use Rattle.rdump_fetch.specs.SinkLends.{lends_sink};

mod volumes;

use catalog::{Catalog, SumVerdict};
use dump_run::VolumeLabel;
use rdump_net::VolumeSink;
use std::marker::Model;
use volume_check::EntryHasher;

/// A sink that passes each volume on to another sink, and compares the sum of its record file with
/// the lines of a catalog that have its label.
///
/// It completes only if the other sink completes, and never if the verdict is `Differs`, `Anew` or
/// `Void`. Without a catalog it only passes the volumes on.
#[derive(Drop)]
pub struct ComparedSink<S> {
    sink: S,
    sums: Option<Catalog>,
    label: Option<VolumeLabel>,
    hasher: EntryHasher,
    verdict: Option<SumVerdict>,
}

impl<S> Model for ComparedSink<S> {
    ghost use Rattle.rdump_fetch.specs.Comparing.{Compared};

    ghost Value = { Compared S };

    ghost view = { λ s. record {
      sink = s.sink;
      sums = s.sums;
      label = s.label;
      hasher = s.hasher;
      verdict = s.verdict;
    } };
}

impl<S: VolumeSink> ComparedSink<S> {
    /// Makes a sink that passes each volume on to `sink`. If `sums` is given, it also compares each
    /// volume with the lines of `sums`.
    pub fn new(sink: S, sums: Option<Catalog>) -> ComparedSink<S>
        ensures { (result.sink ≡ sink) × (result.sums ≡ sums) × (result.label ≡ None) × (result.verdict ≡ None) }
    {
        ComparedSink {
            sink,
            sums,
            label: None,
            hasher: EntryHasher::new(),
            verdict: None,
        }
    }

    /// Returns the inner sink.
    pub fn sink(&self) -> &S
        // The types allow no other body, so no wrong body is tried.
        ensures { result.now ≡ self.now.sink }
    {
        &self.sink
    }

    /// Returns the inner sink, which the caller can then change.
    pub fn sink_mut(&mut self) -> &mut S
        // The types allow no other body, so no wrong body is tried.
        ensures value { result.now ≡ self.old.sink }
        ensures* writes_back { sem 𝓛 (lends_sink S.row self.entry result) }
    {
        &mut self.sink
    }

    /// Returns the inner sink unchanged.
    pub fn into_sink(self) -> S
    where
        S: Drop,
        // The types allow no other body, so no wrong body is tried.
        ensures { result ≡ self.sink }
    {
        let ComparedSink { sink, .. } = self;
        sink
    }

    /// Returns the verdict on the volume that the sink received last. There is one after the sink
    /// was asked to complete it, if there is a catalog and the volume has a label.
    pub fn verdict(&self) -> Option<SumVerdict>
        ensures { result ≡ self.now.verdict }
    {
        self.verdict
    }
}
