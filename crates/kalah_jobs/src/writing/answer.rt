//! The answer to a line.
use crate::line::line_fault::LineFault;
use kalah_rules::Board;
use kalah_solve::MoveValues;

/// The answer to a line of a file.
#[derive(Clone, Copy, Debug, PartialEq, Eq)]
pub enum Answer {
    /// The margin of best play, -130 to 130, and the lowest-numbered best house, 1 to 6.
    Best { margin: i32, house: u8 },
    /// The margin of a game that is over, -130 to 130.
    Over { margin: i32 },
    /// Each legal house, in ascending order, with the margin that its move gets in best play.
    Values(MoveValues),
    /// Each legal house of this position, in ascending order, with what its move leads to. It is worked out where it is written.
    Steps(Board),
    /// Why the line is not read.
    Fault(LineFault),
}

/// A line of a file with its answer, as a collector returns it to be written.
#[derive(Clone, Copy, Debug, PartialEq, Eq)]
pub struct Taken {
    /// The number of the line in its file, from 0 on.
    pub line: u32,
    /// The answer to it.
    pub answer: Answer,
}
