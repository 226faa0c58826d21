//! Sets of houses as masks: five bits for each house, house 1 lowest, with the value 1 if the house is in the set and 0 if not.
ghost use Rattle.std.specs.Prelude.{◌≡◌, ◌↔◌, ◌+◌, ◌≤◌, ◌<◌, ℕ, length, slice_index, MatchOption};
ghost use Rattle.kalah_rules.specs.{Position.{AreWithinLimits}, Sowing.{EndsDirectlyInStore}};
ghost use Rattle.kalah_solve.specs.HouseSet.{cell, IsLastIn, without_house, IsMaskOfFilled, IsMaskIntoStore};

use kalah_rules::{House, Houses, ONE_EACH, one_each};
use std::marker::Model;

// A row with fifteen seeds in each house.
const FIFTEEN_EACH: u64 = 15 * ONE_EACH;

// The row whose houses all end in the store, by the number of houses a side.
static ALL_INTO_STORE: [u64; 7] = [0, 1, 0x22, 0x443, 0x8864, 0x11_0C85, 0x221_90A6];

// Returns the mask of the houses of a row that have seeds. 15 more in the lower four bits of a cell carries into its fifth bit, unless they
// are 0.
#[tactic(auto, using(crate::proofs::HouseSetLemmas::mask_of_filled))]
fn filled(row: u64) -> u64
    ensures { IsMaskOfFilled row result }
{
    ((((row & FIFTEEN_EACH) + FIFTEEN_EACH) | row) >> 4) & ONE_EACH
}

// Returns the mask of the houses of a row of `m` whose last seed would fall into the store without a lap.
fn into_store(row: u64, m: u8) -> u64
    requires { m ≤ 6 }
    ensures { IsMaskIntoStore row m result }
{
    filled(row ^ ALL_INTO_STORE[m as usize]) ^ one_each(m)
}

/// A set of the mover's houses, seen as its mask.
#[derive(Clone, Copy)]
pub(crate) struct HouseSet {
    mask: u64,
}

impl Model for HouseSet {
    ghost use Rattle.std.specs.Prelude.{ℕ};
    ghost use Rattle.kalah_solve.specs.HouseSet.{IsMask};

    ghost Value = { ℕ };

    ghost view = { λ set. set.mask };

    ghost invariant = { λ set. IsMask set.mask };

    ghost inverse = { λ mask. record { mask = mask } };
}

impl HouseSet {
    /// Returns the mover's houses that have seeds.
    #[tactic(auto, using(crate::proofs::HouseSetLemmas::in_filled))]
    pub(crate) fn filled(houses: &Houses) -> HouseSet
        ensures members { (i : ℕ) → (0 < cell result i) ↔ (0 < slice_index houses.now.own i) }
        ensures limits { AreWithinLimits houses.now }
    {
        HouseSet {
            mask: filled(houses.own_row()),
        }
    }

    /// Returns the mover's houses whose last seed would fall into the store without a lap.
    #[tactic(auto, using(crate::proofs::HouseSetLemmas::in_mask_into_store))]
    pub(crate) fn ending_in_store(houses: &Houses) -> HouseSet
        ensures members { (i : ℕ) → (0 < cell result i) ↔ ((i < length houses.now.own) × EndsDirectlyInStore houses.now (i + 1)) }
        ensures limits { AreWithinLimits houses.now }
    {
        HouseSet {
            mask: into_store(houses.own_row(), houses.m()),
        }
    }

    /// Returns the mover's remaining houses that have seeds: those that don't end in the store without a lap.
    #[tactic(auto, using(crate::proofs::HouseSetLemmas::in_remaining, crate::proofs::HouseSetLemmas::mask_of_remaining))]
    pub(crate) fn remaining(houses: &Houses) -> HouseSet
        ensures members { (i : ℕ) → (0 < cell result i) ↔ ((0 < slice_index houses.now.own i) × ¬ EndsDirectlyInStore houses.now (i + 1)) }
        ensures limits { AreWithinLimits houses.now }
    {
        let row = houses.own_row();
        HouseSet {
            mask: filled(row) ^ into_store(row, houses.m()),
        }
    }

    /// Takes the last house out of the set, or returns `None` if the set is empty.
    #[inline(always)]
    pub(crate) fn pop_last(&mut self) -> Option<House>
        ensures { MatchOption result (self.old ≡ 0) (λ house. IsLastIn self.old house × (self.new ≡ without_house self.old house)) }
    {
        if self.mask == 0 {
            return None;
        }
        let bit = 63 - self.mask.leading_zeros();
        self.mask -= 1 << bit;
        Some(House::at(bit as u8))
    }
}
