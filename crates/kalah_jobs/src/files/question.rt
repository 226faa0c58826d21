//! What is asked of the lines of a batch.

/// What is asked of each position of a batch.
#[derive(Clone, Copy, Debug, PartialEq, Eq)]
pub enum Question {
    /// The margin of best play, and the lowest-numbered best house.
    BestMove,
    /// Each legal house, with the margin that its move gets in best play.
    Values,
    /// Each legal house, with what its move leads to. This takes no search.
    Steps,
}
