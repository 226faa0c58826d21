//! The houses of one side, put together one by one.
ghost use Rattle.std.specs.Prelude.{◌≡◌, ◌+◌, ◌<◌, ◌≤◌, ◌^◌, ◌↔◌, [], ◌∷◌, ◌++◌, length, take, drop, sum, All, IsSome, IfSome, IsTrue, MatchBool};
ghost use Rattle.kalah_rules.specs.{Key.{packed_row}, Limits.{most_houses, most_seeds}};

use crate::houses::house::House;
use crate::houses::numbers::row_with;
use crate::limits::{MOST_HOUSES, MOST_SEEDS};
use std::marker::Model;

/// The houses of one side, house 1 first: at most six, with at most 31 seeds together. They are stored as they stand in the key of
/// houses, with their number and the number of their seeds.
#[derive(Drop)]
pub struct HouseRow {
    number: u64,
    seeds: u64,
    count: u8,
}

impl Model for HouseRow {
    ghost use Rattle.std.specs.Prelude.{ℕ, List};
    ghost use Rattle.kalah_rules.specs.{Key.{cells}, Fields.{AreRowFields}};

    ghost Value = { List ℕ };

    ghost view = { λ row. cells row.count row.number };

    ghost invariant = { λ row. AreRowFields row.count row.number row.seeds };
}

impl HouseRow {
    /// Makes a row without houses.
    pub fn new() -> HouseRow
        ensures { result ≡ [] }
    {
        HouseRow {
            number: 0,
            seeds: 0,
            count: 0,
        }
    }

    /// Appends a house, and returns whether it has room: a row has at most six houses, and at most 31 seeds. If it has none,
    /// nothing is changed.
    pub fn push(&mut self, seeds: u8) -> bool
        ensures room { IsTrue result ↔ ((length self.old < most_houses) × (sum self.old + seeds ≤ most_seeds)) }
        ensures pushed { MatchBool result (self.new ≡ self.old ++ seeds ∷ []) (self.new ≡ self.old) }
    {
        let total = self.seeds + seeds as u64;
        if self.count >= MOST_HOUSES || total > MOST_SEEDS as u64 {
            return false;
        }
        self.number += row_with(House::new(self.count + 1), seeds as u64);
        self.seeds = total;
        self.count += 1;
        true
    }

    /// Returns the first `m` of these cells as houses. Returns `None` if and only if a later cell isn't 0, or the cells hold more than 31
    /// seeds.
    pub(super) fn of_cells(cells: &[u8; 6], m: u8) -> Option<HouseRow>
        requires { m ≤ most_houses }
        ensures valid { IsSome result ↔ (All (λ x. x ≡ 0) (drop m cells.now) × (sum cells.now ≤ most_seeds)) }
        ensures value { IfSome result (λ row. row ≡ take m cells.now) }
    {
        let mut row = HouseRow::new();
        for i in 0..m {
            if !row.push(cells[i as usize]) {
                return None;
            }
        }
        for i in m..6 {
            if cells[i as usize] > 0 {
                return None;
            }
        }
        Some(row)
    }

    /// Returns the number of houses, at most 6.
    #[tactic(auto, using(crate::proofs::KeyLemmas::cells_read))]
    pub fn len(&self) -> u8
        ensures value { result ≡ length self.now }
        ensures few { result ≤ most_houses }
    {
        self.count
    }

    /// Returns the houses as a number.
    #[tactic(auto, using(crate::proofs::KeyLemmas::row_is_small))]
    pub(super) fn number(&self) -> u64
        ensures value { result ≡ packed_row self.now }
        ensures small { result < 2 ^ 30 }
    {
        self.number
    }

    /// Returns the number of seeds.
    pub(super) fn seeds(&self) -> u64
        ensures value { result ≡ sum self.now }
        ensures few { result ≤ most_seeds }
    {
        self.seeds
    }
}
