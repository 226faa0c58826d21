//! The legal moves of a board, and their results.
ghost use Rattle.std.specs.Prelude.{◌≡◌, ◌↔◌, IsTrue, Contains};
ghost use Rattle.kalah_rules.specs.{Position.{IsWithinLimits}, Sowing.{after}};

use crate::board::Board;
use crate::moves::Moves;
use crate::step::{HousesStep, Step};

impl Board {
    ghost use Rattle.kalah_rules.specs.{Play.{legal_houses, step_of}, Measure.{IsNearerEnd}};

    /// Returns whether the mover's house `h` may be moved: it holds seeds, and the game isn't over. `h` may be any number.
    pub fn is_legal(&self, h: u8) -> bool
        ensures { IsTrue result ↔ Contains (legal_houses self.now) h }
    {
        if h < 1 || h > self.m() || self.is_over() {
            return false;
        }
        self.own(h) > 0
    }

    /// Returns the mover's houses that may be moved, in ascending order: those that hold seeds, or none if the game is over.
    pub fn legal(&self) -> Moves
        ensures moves { result ≡ legal_houses self.now }
        ensures limits { IsWithinLimits self.now }
    {
        self.houses.legal()
    }

    /// Plays the mover's house `h`, which must be legal, and returns the board after the move, with how play goes on.
    ///
    /// The rules are those of `Houses::play`. Seeds that it brings to a store are added there.
    pub fn apply(&self, h: u8) -> Step
        requires { Contains (legal_houses self.now) h }
        ensures step { result ≡ step_of self.now h }
        ensures nearer_end { IsNearerEnd (after self.now h) self.now }
        ensures limits { IsWithinLimits self.now }
    {
        match self.houses.play(h) {
            HousesStep::Over { own, other } => Step::Over(Board {
                houses: self.houses.without_seeds(),
                own_store: self.own_store + own as u32,
                other_store: self.other_store + other as u32,
            }),
            HousesStep::Again { gained, next } => Step::Again(Board {
                houses: next,
                own_store: self.own_store + gained as u32,
                other_store: self.other_store,
            }),
            HousesStep::Turn { gained, next } => Step::Turn(Board {
                houses: next,
                own_store: self.other_store,
                other_store: self.own_store + gained as u32,
            }),
        }
    }
}
