//! Why a line is not read.
ghost use Rattle.std.specs.Prelude.{◌≡◌};
ghost use Rattle.kalah_jobs.specs.Line.LineFault.{fault_word};

/// Why a line is not read as a position: the first of these that holds.
#[derive(Clone, Copy, Debug, PartialEq, Eq)]
pub enum LineFault {
    /// It has more than 80 bytes.
    Long,
    /// It has no bytes.
    Empty,
    /// It is not two sides of at least one house each, followed by nothing but the suffix of the rule.
    Shape,
    /// The sides differ in length, or have more than 6 houses.
    Houses,
    /// The houses hold more than 31 seeds together.
    Seeds,
}

impl LineFault {
    /// Returns the word that is printed for the fault.
    pub fn word(self) -> &'static str
        ensures { result.now ≡ fault_word self }
    {
        match self {
            LineFault::Long => "long",
            LineFault::Empty => "empty",
            LineFault::Shape => "shape",
            LineFault::Houses => "houses",
            LineFault::Seeds => "seeds",
        }
    }
}
