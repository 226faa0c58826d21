//! The houses of a board without the stores, as numbers.
ghost use Rattle.std.specs.Prelude.{◌≡◌, ◌<◌, ◌≤◌, ◌^◌, ◌↔◌, length, sum, IsSome, IfSome, IsTrue, Some};
ghost use Rattle.kalah_rules.specs.{Position.{HousesState, seeds, total_seeds, is_over, storeless, without_seeds, AreWithinLimits}, Play.{legal_houses}, Cells.{CanBeHouses, houses_from}, Key.{packed_row, key_of, variant_of, IsKey}};

pub(crate) mod house;
pub(crate) mod house_row;
pub(crate) mod numbers;
mod play;
pub(crate) mod sowing_table;

use crate::houses::house::House;
use crate::houses::house_row::HouseRow;
use crate::houses::numbers::{
    OTHER_ROW_UNIT, RULE_UNIT, SIDE_UNIT, cells_of, rule_of_bit, seeds_at, variant_number,
};
use crate::limits::{MOST_HOUSES, MOST_SEEDS};
use crate::moves::Moves;
use crate::rule::Rule;
use std::marker::Model;

/// The houses of a board and its rule, without the stores. Stores change neither the legal moves nor what they do, so
/// this is all that a solver needs.
///
/// Stored are both rows in one number, the number of seeds, and the variant. Code that is compiled for one variant (`in_variant`) computes
/// nothing that depends on it.
#[derive(Clone, Copy, Debug, PartialEq, Eq)]
pub struct Houses {
    // The lowest 60 bits of the key.
    rows: u64,
    // As wide as half of the rows, like the variant, so that a copy has no gap.
    seeds: u32,
    // The upper four bits of the key.
    variant: u32,
}

// Callers of `Houses` and `Board` see the value and not the invariant, so readers promise the limits again (`limits`).
impl Model for Houses {
    ghost use Rattle.kalah_rules.specs.Position.{HousesState};

    ghost Value = { HousesState };

    ghost use Rattle.kalah_rules.specs.{Position.{total_seeds}, Key.{packed_rows, variant_of}};
    ghost use Rattle.kalah_rules.specs.Fields.{AreFields, houses_of_fields};

    ghost view = { λ a. houses_of_fields a.rows a.variant };

    ghost invariant = { λ a. AreFields a.rows a.seeds a.variant };

    ghost inverse = { λ a. record { rows = packed_rows a; seeds = total_seeds a; variant = variant_of a } };

    ghost inverse_ok = { λ a h i. record { rows = h.rows_are i; seeds = h.seeds_are i; variant = h.variant_is i } };
}

impl Houses {
    /// Returns the first `m` cells of each row as houses.
    ///
    /// Returns `None` if and only if `m` isn't 1 to 6, a later cell isn't 0, or the houses hold more than 31 seeds together.
    pub fn new(m: u8, own: [u8; 6], other: [u8; 6], rule: Rule) -> Option<Houses>
        ensures valid { IsSome result ↔ CanBeHouses m own other }
        ensures value { IfSome result (λ a. a ≡ houses_from m own other rule) }
    {
        if m > MOST_HOUSES {
            return None;
        }
        let own = HouseRow::of_cells(&own, m)?;
        let other = HouseRow::of_cells(&other, m)?;
        Houses::of_rows(&own, &other, rule)
    }

    /// Returns the houses of these two rows, or `None` if they differ in length, have no house, or hold more than 31 seeds together.
    pub(crate) fn of_rows(own: &HouseRow, other: &HouseRow, rule: Rule) -> Option<Houses>
        ensures valid { IsSome result ↔ AreWithinLimits (record { own = own.now; other = other.now; rule = rule }) }
        ensures value { IfSome result (λ a. a ≡ record { own = own.now; other = other.now; rule = rule }) }
    {
        let m = own.len();
        let seeds = own.seeds() + other.seeds();
        if m < 1 || other.len() != m || seeds > MOST_SEEDS as u64 {
            return None;
        }
        Some(Houses {
            rows: own.number() + OTHER_ROW_UNIT * other.number(),
            seeds: seeds as u32,
            variant: variant_number(m, rule),
        })
    }

    /// Returns the houses that have this key.
    ///
    /// Returns `None` if and only if the number is no key. Then its number of houses a side isn't 1 to 6, a later house
    /// isn't 0, or the houses hold more than 31 seeds together.
    pub fn of_key(key: u64) -> Option<Houses>
        ensures valid { IsSome result ↔ IsKey key }
        ensures same { IfSome result (λ a. key_of a ≡ key) }
        ensures found { (a : HousesState) → AreWithinLimits a → key_of a ≡ key → result ≡ Some a }
    {
        Houses::new(
            (key / SIDE_UNIT % 8) as u8,
            cells_of(key),
            cells_of(key / OTHER_ROW_UNIT),
            rule_of_bit(key / RULE_UNIT),
        )
    }

    /// Returns the key of these houses. Different houses have different keys.
    ///
    /// Own house i is in the five bits from 5(i - 1) on, and the opponent's house i in those from 30 + 5(i - 1) on. Bits 60 to 62
    /// have the number of houses a side, and bit 63 is set for the empty-capture rule.
    #[tactic(auto, using(crate::proofs::KeyLemmas::fields_of, crate::proofs::KeyLemmas::key_fits))]
    pub fn key(&self) -> u64
        ensures key { result ≡ key_of self.now }
        ensures limits { AreWithinLimits self.now }
    {
        self.rows + SIDE_UNIT * self.variant as u64
    }

    /// Returns the number of seeds in the houses of both players, at most 31.
    pub fn seeds(&self) -> u8
        ensures seeds { result ≡ total_seeds self.now }
        ensures limits { AreWithinLimits self.now }
    {
        self.seeds as u8
    }

    /// Returns the number of houses a side, 1 to 6.
    pub fn m(&self) -> u8
        ensures side { result ≡ length self.now.own }
        ensures limits { AreWithinLimits self.now }
    {
        (self.variant % 8) as u8
    }

    /// Returns the rule of capture.
    pub fn rule(&self) -> Rule
        ensures { result ≡ self.now.rule }
    {
        rule_of_bit(self.variant as u64 / 8)
    }

    /// Returns the variant of the houses, the upper four bits of their key: the number of houses a side, and 8 more for the empty-capture
    /// rule.
    pub fn variant(&self) -> u8
        ensures variant { result ≡ variant_of self.now }
        ensures limits { AreWithinLimits self.now }
    {
        self.variant as u8
    }

    /// Returns these houses, which must be of this variant. What is computed of the result is compiled for it.
    #[inline(always)]
    #[tactic(auto, using(crate::proofs::KeyLemmas::fields_of))]
    pub fn in_variant<const VARIANT: u8>(self) -> Houses
        requires { variant_of self ≡ VARIANT }
        ensures { result ≡ self }
    {
        Houses {
            rows: self.rows,
            seeds: self.seeds,
            variant: VARIANT as u32,
        }
    }

    /// Returns the mover's houses as a number with five bits for each, house 1 lowest: the lowest 30 bits of the key.
    #[tactic(auto, using(crate::proofs::KeyLemmas::fields_of, crate::proofs::KeyLemmas::rows_of_fields))]
    pub fn own_row(&self) -> u64
        ensures value { result ≡ packed_row self.now.own }
        ensures small { result < 2 ^ 30 }
        ensures limits { AreWithinLimits self.now }
    {
        self.rows % OTHER_ROW_UNIT
    }

    /// Returns the opponent's houses as such a number: bits 30 to 59 of the key.
    pub fn other_row(&self) -> u64
        ensures value { result ≡ packed_row self.now.other }
        ensures small { result < 2 ^ 30 }
        ensures limits { AreWithinLimits self.now }
    {
        self.rows / OTHER_ROW_UNIT
    }

    /// Returns the number of seeds in the mover's house `i`, which is 1 to `m`.
    #[tactic(auto, using(crate::proofs::KeyLemmas::read_seeds))]
    pub fn own(&self, i: u8) -> u8
        requires low { 1 ≤ i }
        requires high { i ≤ length self.now.own }
        ensures value { result ≡ seeds self.now.own i }
        ensures small { result < 32 }
    {
        seeds_at(self.own_row(), House::new(i)) as u8
    }

    /// Returns the number of seeds in the opponent's house `i`, which is 1 to `m`.
    #[tactic(auto, using(crate::proofs::KeyLemmas::read_seeds))]
    pub fn other(&self, i: u8) -> u8
        requires low { 1 ≤ i }
        requires high { i ≤ length self.now.own }
        ensures value { result ≡ seeds self.now.other i }
        ensures small { result < 32 }
    {
        seeds_at(self.other_row(), House::new(i)) as u8
    }

    /// Returns whether the game is over: the houses of one of the players are all empty.
    pub fn is_over(&self) -> bool
        ensures { result ≡ is_over (storeless self.now) }
    {
        self.own_row() == 0 || self.other_row() == 0
    }

    /// Returns the mover's houses that may be moved, in ascending order: those that hold seeds, or none if the game is over.
    pub fn legal(&self) -> Moves
        ensures moves { result ≡ legal_houses (storeless self.now) }
        ensures limits { AreWithinLimits self.now }
    {
        let m = self.m();
        let mut moves = Moves::none();
        if self.is_over() {
            return moves;
        }
        for h in 1..m + 1 {
            if self.own(h) > 0 {
                moves.push(h);
            }
        }
        moves
    }

    /// Returns the number of seeds that each player has in houses at the end of a game: the mover's, and the opponent's.
    pub(crate) fn final_seeds(&self) -> (u8, u8)
        requires { IsTrue (is_over (storeless self.now)) }
        ensures own { result.0 ≡ sum self.now.own }
        ensures other { result.1 ≡ sum self.now.other }
    {
        if self.own_row() == 0 {
            (0, self.seeds())
        } else {
            (self.seeds(), 0)
        }
    }

    /// Returns houses of the same number and rule without seeds.
    pub fn without_seeds(&self) -> Houses
        ensures { result ≡ without_seeds self.now }
    {
        Houses {
            rows: 0,
            seeds: 0,
            variant: self.variant,
        }
    }
}
