//! Boards: positions within the limits.
ghost use Rattle.std.specs.Prelude.{◌≡◌, ◌≤◌, ◌↔◌, IsTrue, IsSome, IfSome};
ghost use Rattle.kalah_rules.specs.{Position.{side_length, seeds, is_over, final_margin, IsWithinLimits, houses_in, with_stores, IsMarginInRange}, Cells.{CanBeStores, CanStart, CanStartFrom, position_of}};

mod play;
#[cfg(test)]
pub(crate) mod tests;

use crate::houses::Houses;
use crate::houses::house_row::HouseRow;
use crate::limits::MOST_IN_STORE;
use crate::rule::Rule;
use std::marker::Model;

/// A position within the limits, seen by the player to move, the mover.
///
/// Houses are numbered 1 to `m`. House 1 is the farthest from its owner's store, and the mover's house `i` lies across
/// from the opponent's house `m + 1 - i`. A board has 1 to 6 houses a side and at most 31 seeds in houses. Each
/// store, together with all seeds in houses, holds at most 130.
#[derive(Clone, Copy, Debug, PartialEq, Eq)]
pub struct Board {
    houses: Houses,
    // As wide as half of the rows, like the seeds, so that a copy has no gap.
    own_store: u32,
    other_store: u32,
}

impl Model for Board {
    ghost use Rattle.kalah_rules.specs.Position.{Position, with_stores, houses_in, IsWithinLimits};

    ghost Value = { Position };

    ghost view = { λ b. with_stores b.houses b.own_store b.other_store };

    ghost invariant = { λ b. IsWithinLimits (with_stores b.houses b.own_store b.other_store) };

    ghost inverse = { λ p. record { houses = houses_in p; own_store = p.own_store; other_store = p.other_store } };
}

impl Board {
    /// Returns the board whose houses are the first `m` cells of each row.
    ///
    /// Returns `None` if and only if one of these holds:
    /// - `m` isn't 1 to 6, or a cell after the first `m` isn't 0;
    /// - the houses hold more than 31 seeds together, or a store more than 99.
    pub fn new(
        m: u8,
        own: [u8; 6],
        own_store: u8,
        other: [u8; 6],
        other_store: u8,
        rule: Rule,
    ) -> Option<Board>
        ensures valid { IsSome result ↔ CanStart m own own_store other other_store }
        ensures value { IfSome result (λ b. b ≡ position_of m own own_store other other_store rule) }
    {
        Board::with_stores(Houses::new(m, own, other, rule)?, own_store, other_store)
    }

    /// Returns the board of these rows of houses. The result is that of `new` with the same houses, computed with less work.
    ///
    /// Returns `None` if and only if one of these holds:
    /// - the rows differ in length, or have no house;
    /// - they hold more than 31 seeds together, or a store holds more than 99.
    #[inline(always)]
    pub fn of_rows(
        own: &HouseRow,
        own_store: u8,
        other: &HouseRow,
        other_store: u8,
        rule: Rule,
    ) -> Option<Board>
        ensures valid { IsSome result ↔ CanStartFrom (record { own = own.now; other = other.now; rule = rule }) own_store other_store }
        ensures value { IfSome result (λ b. b ≡ with_stores (record { own = own.now; other = other.now; rule = rule }) own_store other_store) }
    {
        Board::with_stores(Houses::of_rows(own, other, rule)?, own_store, other_store)
    }

    // Returns the board of these houses. Returns `None` if and only if a store holds more than 99.
    #[inline(always)]
    fn with_stores(houses: Houses, own_store: u8, other_store: u8) -> Option<Board>
        ensures valid { IsSome result ↔ CanBeStores own_store other_store }
        ensures value { IfSome result (λ b. b ≡ with_stores houses own_store other_store) }
    {
        if own_store > MOST_IN_STORE || other_store > MOST_IN_STORE {
            return None;
        }
        Some(Board {
            houses,
            own_store: own_store as u32,
            other_store: other_store as u32,
        })
    }

    /// Returns the number of houses a side, 1 to 6.
    pub fn m(&self) -> u8
        ensures side { result ≡ side_length self.now }
        ensures limits { IsWithinLimits self.now }
    {
        self.houses.m()
    }

    /// Returns the number of seeds in the mover's house `i`, which is 1 to `m`.
    pub fn own(&self, i: u8) -> u8
        requires low { 1 ≤ i }
        requires high { i ≤ side_length self.now }
        ensures { result ≡ seeds self.now.own i }
    {
        self.houses.own(i)
    }

    /// Returns the number of seeds in the opponent's house `i`, which is 1 to `m`.
    pub fn other(&self, i: u8) -> u8
        requires low { 1 ≤ i }
        requires high { i ≤ side_length self.now }
        ensures { result ≡ seeds self.now.other i }
    {
        self.houses.other(i)
    }

    /// Returns the number of seeds in the mover's store, at most 130.
    pub fn own_store(&self) -> u8
        ensures { result ≡ self.now.own_store }
    {
        self.own_store as u8
    }

    /// Returns the number of seeds in the opponent's store, at most 130.
    pub fn other_store(&self) -> u8
        ensures { result ≡ self.now.other_store }
    {
        self.other_store as u8
    }

    /// Returns the rule of capture.
    pub fn rule(&self) -> Rule
        ensures rule { result ≡ self.now.rule }
        ensures limits { IsWithinLimits self.now }
    {
        self.houses.rule()
    }

    /// Returns the houses and the rule, without the stores.
    pub fn houses(&self) -> Houses
        ensures { result ≡ houses_in self.now }
    {
        self.houses
    }

    /// Returns whether the game is over: the houses of one of the players are all empty.
    pub fn is_over(&self) -> bool
        ensures over { result ≡ is_over self.now }
        ensures limits { IsWithinLimits self.now }
    {
        self.houses.is_over()
    }

    /// Returns the final margin, -130 to 130: what the mover has in houses and store, less what the opponent has. The game must be
    /// over.
    pub fn returns(&self) -> i32
        requires { IsTrue (is_over self.now) }
        ensures margin { result ≡ final_margin self.now }
        ensures small { IsMarginInRange result }
    {
        let (own, other) = self.houses.final_seeds();
        (own as u32 + self.own_store) as i32 - (other as u32 + self.other_store) as i32
    }
}
