//! Why an outcome is refused.

/// Why a collector refuses an outcome, in the order in which the causes are tested.
#[derive(Clone, Copy, Debug, PartialEq, Eq)]
pub enum Refusal {
    /// There is no file of that number.
    NoSuchFile,
    /// Every line of the file is ready or taken; a file with no lines has ended from the start.
    FileEnded,
    /// The file has no line of that number.
    NoSuchLine,
    /// The outcome's entry isn't the entry of that line.
    WrongPosition,
    /// An outcome for this line was accepted before.
    Double,
}
