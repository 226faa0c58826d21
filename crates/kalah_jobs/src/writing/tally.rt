//! What a batch counts.

/// How many lines a batch has answered.
#[derive(Clone, Copy, Debug, PartialEq, Eq)]
pub struct Tally {
    /// The number of lines that were answered.
    pub lines: u32,
    /// The number of lines that were answered by a fault.
    pub faults: u32,
}
