//! The order of turns: an estimate of how good each is, before its outcome is known. It states nothing about their worth.
ghost use Rattle.std.specs.Prelude.{◌≡◌, ◌+◌, ◌%◌, ◌≤◌, ◌<◌};
ghost use Rattle.kalah_rules.specs.Limits.{most_seeds};

mod weights;

use crate::search::move_order::weights::{GAIN_WEIGHT, HOUSE_WEIGHTS, PLACE_PRIORITIES};
use kalah_rules::{House, Houses};

// The cells of six pairs of houses, each with 32 numbers of seeds for either.
const WEIGHT_CELLS: usize = 6 * 1024;

/// What orders the turns: the weights of the houses, two neighbours at a time.
#[derive(Drop)]
pub(crate) struct MoveOrder {
    // What two neighbouring houses count together, for each of the six pairs and each number of seeds of either, modulo 16. No pair
    // counts more than 255.
    weights: [u8; WEIGHT_CELLS],
}

impl MoveOrder {
    /// Computes the table.
    pub(crate) fn new() -> MoveOrder {
        let mut weights = [0u8; WEIGHT_CELLS];
        for i in 0..WEIGHT_CELLS {
            let first = HOUSE_WEIGHTS[i / 1024 * 2][i % 16];
            let second = HOUSE_WEIGHTS[i / 1024 * 2 + 1][i / 32 % 16];
            weights[i] = first.saturating_add(second);
        }
        MoveOrder { weights }
    }

    // Returns what the houses count that a turn leaves. The limit keeps a priority below 2^16.
    #[inline(always)]
    fn weight(&self, m: u8, next: &Houses) -> u32
        requires { m ≤ 6 }
        ensures { result ≤ 1530 }
    {
        // The house next to a store is the last of six, for any number of houses.
        let cells = next.key() << (5 * (6 - m));
        let mut weight = 0;
        for i in 0..6usize {
            let pair = (cells >> (10 * i)) % 1024;
            weight += self.weights[1024 * i + pair as usize] as u32;
        }
        weight
    }

    /// Returns the priority of a turn of this house that brought `gained` seeds to the store and leaves these houses to the other
    /// player. It is an estimate times 8, plus the house's number less 1, which names it. So two turns of a position are never equal, and
    /// of equal estimates the house nearest the store comes first.
    ///
    /// The estimate counts what came to the store, the place of the house, and each house that is left, by its place and its seeds.
    #[inline(always)]
    pub(crate) fn priority(&self, house: House, gained: u8, next: &Houses) -> u16
        requires few { gained ≤ most_seeds }
        ensures some { 0 < result }
        ensures house { result % 8 + 1 ≡ house }
    {
        let m = next.m();
        let without_place = GAIN_WEIGHT * gained as u32 + self.weight(m, next);
        let of_place = PLACE_PRIORITIES[(m / 6) as usize][(m + house.bit() - 1) as usize];
        (8 * without_place + of_place as u32) as u16
    }
}
