//! The two rules of capture.
ghost use Rattle.std.specs.Prelude.{◌≡◌};

/// A rule of capture: what happens if the last seed of a move falls into an empty house of the mover.
#[derive(Clone, Copy, Debug, PartialEq, Eq)]
pub enum Rule {
    /// The last seed and the seeds in the house across are captured. If the house across is empty, nothing happens.
    Classic,
    /// As `Classic`, but if the house across is empty, the last seed alone is captured.
    EmptyCapture,
}

impl Rule {
    ghost use Rattle.kalah_rules.specs.Sowing.{captures};

    /// Returns whether a last seed that is alone in its house captures, if the house across holds `across` seeds.
    pub fn captures(self, across: u8) -> bool
        ensures { result ≡ captures self across }
    {
        match self {
            Rule::Classic => across > 0,
            Rule::EmptyCapture => true,
        }
    }
}
