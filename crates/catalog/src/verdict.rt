//! The result of a comparison of a sum with the lines of a catalog.

ghost use Rattle.std.specs.Prelude.{◌≡◌};
ghost use Rattle.catalog.specs.Verdict.{verdict_words};

/// Whether a catalog has the sum of a volume.
#[derive(Clone, Copy, Debug, PartialEq, Eq)]
pub enum SumVerdict {
    /// A line that is in force has the volume's label and its sum.
    Equal,
    /// A line that is in force has the volume's label, but no line has this label and this sum.
    Differs,
    /// A line has the volume's label and its sum, but the dump began anew after it.
    Anew,
    /// A line has the volume's label and its sum, but this volume or an earlier one was written
    /// again after it.
    Void,
    /// No line that is in force has the volume's label.
    Unknown,
}

impl SumVerdict {
    /// Returns the verdict in words.
    pub fn words(self) -> &'static str
        ensures { result.now ≡ verdict_words self }
    {
        match self {
            SumVerdict::Equal => "sum equal",
            SumVerdict::Differs => "sum differs",
            SumVerdict::Anew => "of a dump that was begun anew",
            SumVerdict::Void => "of a volume that was written again",
            SumVerdict::Unknown => "no sum known",
        }
    }
}
