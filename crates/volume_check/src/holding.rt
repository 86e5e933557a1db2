//! Descriptions of reels. `with_..` returns the description after one more entry.

ghost use Rattle.std.specs.Prelude.{◌≡◌, ◌≢◌, ◌+◌, ◌<◌, ◌^◌, ℕ, List, [], ◌∷◌, ◌++◌, length};
ghost use Rattle.tape.specs.Tape.{PlainEntry};
ghost use Rattle.tape.specs.Tape.PlainEntry.{Record, Mark};
ghost use Rattle.volume_check.specs.Holding.{IsHolding};
ghost use Rattle.volume_check.specs.Finding.{IsOfVolume};
ghost use Rattle.dump_run.specs.Label.{label_bytes};
ghost use Rattle.volume_check.specs.declared.holding.Holding.TheVariants.{Empty};
ghost use Rattle.volume_check.specs.declared.holding.VolumeEnd.TheVariants.{NoMark};

use dump_run::VolumeLabel;

/// What follows the blocks of a volume on its reel.
#[derive(Clone, Copy, Debug, PartialEq, Eq)]
pub enum VolumeEnd {
    /// Nothing: the mark is missing, as after a dump that was cut short.
    NoMark,
    /// One mark, and nothing after it: the volume is whole.
    OneMark,
    /// A mark, and more records or marks after it.
    MoreAfterMark,
}

/// A volume on a reel.
#[derive(Drop)]
pub struct Volume {
    /// The label, as it was read.
    pub label: VolumeLabel,
    /// How many blocks there are: the records between the label and the first mark, or the end.
    pub blocks: u64,
    /// How many bytes each block has; 0 if there is no block.
    pub block_bytes: usize,
    /// What follows the blocks.
    pub end: VolumeEnd,
}

/// What a reel holds.
#[derive(Drop)]
pub enum Holding {
    /// No record and no mark.
    Empty,
    /// A label and blocks of one length. The volume may be whole or not.
    Volume(Volume),
    /// Something else: a mark comes first, or a record that is not a label, or blocks of two
    /// lengths follow a label.
    Foreign,
}

impl Holding {
    pub(crate) fn with_record(self, bytes: &[u8]) -> Holding
        ensures { (entries : List PlainEntry) → length entries + 1 < 2 ^ 64 → IsHolding self entries →
            IsHolding result (entries ++ Record bytes.now ∷ []) }
    {
        match self {
            Holding::Empty => Holding::begun_by(bytes),
            begun => begun.with_other(bytes.len()),
        }
    }

    pub(crate) fn with_other(self, len: usize) -> Holding
        requires { self ≡ Empty → len ≢ label_bytes }
        ensures { (bytes : List ℕ) (entries : List PlainEntry) → len ≡ length bytes → length entries + 1 < 2 ^ 64 →
            IsHolding self entries → IsHolding result (entries ++ Record bytes ∷ []) }
    {
        match self {
            Holding::Volume(volume) => volume.with_record(len),
            _ => Holding::Foreign,
        }
    }

    pub(crate) fn with_mark(self) -> Holding
        ensures { (entries : List PlainEntry) → IsHolding self entries → IsHolding result (entries ++ Mark ∷ []) }
    {
        match self {
            Holding::Volume(volume) => Holding::Volume(volume.with_mark()),
            Holding::Empty | Holding::Foreign => Holding::Foreign,
        }
    }

    fn begun_by(bytes: &[u8]) -> Holding
        ensures { IsHolding result (Record bytes.now ∷ []) }
    {
        match VolumeLabel::read(bytes) {
            Some(label) => Holding::Volume(Volume {
                label,
                blocks: 0,
                block_bytes: 0,
                end: VolumeEnd::NoMark,
            }),
            None => Holding::Foreign,
        }
    }
}

impl Volume {
    fn with_record(self, len: usize) -> Holding
        ensures { (bytes : List ℕ) (entries : List PlainEntry) → len ≡ length bytes → length entries + 1 < 2 ^ 64 →
            IsOfVolume self entries → IsHolding result (entries ++ Record bytes ∷ []) }
    {
        match self.end {
            VolumeEnd::NoMark => self.with_block(len),
            _ => Holding::Volume(self.with_more()),
        }
    }

    fn with_block(self, len: usize) -> Holding
        requires { self.end ≡ NoMark }
        ensures { (bytes : List ℕ) (entries : List PlainEntry) → len ≡ length bytes → length entries + 1 < 2 ^ 64 →
            IsOfVolume self entries → IsHolding result (entries ++ Record bytes ∷ []) }
    {
        if self.blocks != 0 && self.block_bytes != len {
            return Holding::Foreign;
        }
        Holding::Volume(Volume {
            blocks: self.blocks.saturating_add(1),
            block_bytes: len,
            ..self
        })
    }

    fn with_mark(self) -> Volume
        ensures { (entries : List PlainEntry) → IsOfVolume self entries → IsOfVolume result (entries ++ Mark ∷ []) }
    {
        match self.end {
            VolumeEnd::NoMark => Volume {
                end: VolumeEnd::OneMark,
                ..self
            },
            _ => self.with_more(),
        }
    }

    fn with_more(self) -> Volume
        requires { self.end ≢ NoMark }
        ensures { (entries : List PlainEntry) (next : PlainEntry) → IsOfVolume self entries → IsOfVolume result (entries ++ next ∷ []) }
    {
        Volume {
            end: VolumeEnd::MoreAfterMark,
            ..self
        }
    }
}
