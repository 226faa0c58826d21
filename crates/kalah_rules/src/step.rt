//! The results of a move.
ghost use Rattle.std.specs.Prelude.{◌≡◌};
ghost use Rattle.kalah_rules.specs.Play.{position_after};

use crate::board::Board;
use crate::houses::Houses;

/// The result of a move on a board.
#[derive(Clone, Copy, Debug, PartialEq, Eq)]
pub enum Step {
    /// The last seed fell into the mover's store, so the mover moves again.
    Again(Board),
    /// The opponent is to move, and the board is seen from that player's side.
    Turn(Board),
    /// The game is over. Each player's houses are swept into that player's store. The sides are not swapped.
    Over(Board),
}

impl Step {
    /// Returns the board that the move leads to.
    #[tactic(auto, using(crate::proofs::PlayLemmas::after_step))]
    pub fn board(&self) -> &Board
        ensures { result.now ≡ position_after self.now }
    {
        match self {
            Step::Again(board) | Step::Turn(board) | Step::Over(board) => board,
        }
    }
}

/// The result of a move on houses. While the game goes on, it has the number of seeds that came to the mover's store and the next houses.
#[derive(Clone, Copy)]
pub enum HousesStep {
    /// The game is over. The mover gets `own` seeds and the opponent `other`, both with the sweep.
    Over { own: u8, other: u8 },
    /// The last seed fell into the mover's store, so the mover moves again.
    Again { gained: u8, next: Houses },
    /// The opponent is to move, and the next houses are seen from that player's side.
    Turn { gained: u8, next: Houses },
}
