//! The two players of a board.
ghost use Rattle.std.specs.Prelude.{◌≡◌, ◌≤◌};
ghost use Rattle.kalah_rules.specs.Position.{side_length, seeds};
ghost use Rattle.kalah_jobs.specs.Writing.Player.{houses_of, store_of};

use kalah_rules::Board;

/// One of the two players of a board.
#[derive(Clone, Copy)]
pub(crate) enum Player {
    /// The player to move.
    Mover,
    /// The opponent.
    Other,
}

impl Player {
    /// Returns the number of seeds in the player's house `i`.
    pub(crate) fn seeds(self, board: &Board, i: u8) -> u8
        requires low { 1 ≤ i }
        requires high { i ≤ side_length board.now }
        ensures { result ≡ seeds (houses_of self board.now) i }
    {
        match self {
            Player::Mover => board.own(i),
            Player::Other => board.other(i),
        }
    }

    /// Returns the number of seeds in the player's store.
    pub(crate) fn store(self, board: &Board) -> u8
        ensures { result ≡ store_of self board.now }
    {
        match self {
            Player::Mover => board.own_store(),
            Player::Other => board.other_store(),
        }
    }
}
