//! The law of volumes that are compared.
ghost use Rattle.std.specs.Prelude.{◌≡◌, ℕ, List, ◌∷◌, Bool, true, Some, All};
ghost use Rattle.tape.specs.Tape.{IsRecord};
ghost use Rattle.dump_run.specs.Label.{PlainLabel, IsLabel, label_record};
ghost use Rattle.rdump_net.specs.Sink.{SinkCall, Takes};
ghost use Rattle.catalog.specs.declared.line.CatalogLine.{CatalogLine};
ghost use Rattle.volume_check.specs.Volume.{file_sum};
ghost use Rattle.rdump_fetch.specs.Comparing.{Compared, ComparedStep};
ghost use Rattle.rdump_fetch.specs.ComparedVolume.{PassesOn, HasNotDiffered, volume_calls, volume_entries};

use dump_run::one_label;
use rdump_net::VolumeSink;

/// A `ComparedSink` passes calls on to the inner sink, and never completes a volume with the
/// verdict `Differs`, `Anew` or `Void`. `rdump_net::copy_volume` takes a reel offline only if its
/// sink completes.
///
/// The function does nothing: its contract is a law.
pub fn compared_volume<S: VolumeSink>()
    ensures passes { (s t : Compared S) (calls : List SinkCall) (whole : Bool) → Takes (ComparedStep S.takes) s t calls whole →
        PassesOn S.takes s t calls whole }
    ensures kept { (s t : Compared S) (lines : List CatalogLine) (l : PlainLabel) (more : List (List ℕ)) → s.sums ≡ Some lines →
        IsLabel l → All IsRecord (label_record l ∷ more) → Takes (ComparedStep S.takes) s t (volume_calls l more) true →
        HasNotDiffered lines l (file_sum (volume_entries l more)) t }
{
    one_label();
}
