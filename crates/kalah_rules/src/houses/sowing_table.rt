//! How each house is sown, for each number of its seeds. A sowing is one subtraction from both rows.
ghost use Rattle.std.specs.Prelude.{◌<◌, ◌≤◌, ℕ};
ghost use Rattle.kalah_rules.specs.{SowingTable.{IsLastHouse, IsNoHouse, IsSowing, IsSowingCell}, declared.houses.sowing_table.TheConstants.{CELLS}};

use crate::houses::house::House;
use crate::houses::numbers::{OTHER_ROW_UNIT, other_gains, own_gains, row_with, store_gains};
use std::marker::Model;

// The cells of the table: 31 groups of 32, a cell for each number of seeds. The group of a house is `House::index_in`.
const CELLS: usize = 31 * 32;

/// How the seeds of one house are sown.
#[derive(Clone, Copy)]
pub(super) struct Sowing {
    // What both rows lose, modulo 2^64: the seeds that are lifted, less what the rows gain.
    pub(super) loses: u64,
    // If the last seed falls into an own house, the five bits of that house, and the lowest of them. Otherwise 0 and 1, so that no row
    // has one seed there.
    pub(super) last_mask: u64,
    pub(super) last_seed: u64,
    // The bit at which the house across from it begins in a key.
    pub(super) across_bit: u8,
    // What the store gains.
    pub(super) store: u8,
    // Whether the last seed falls into the store.
    pub(super) again: bool,
}

// Where the last seed falls: the fields of a sowing.
#[derive(Clone, Copy)]
struct LastCell {
    mask: u64,
    seed: u64,
    across_bit: u8,
}

// Returns the cell with this place: of an own house its five bits, the lowest of them, and the bit at which the house across begins in a
// key. For the place of any other cell these are 0, 1 and 0.
fn last_cell(m: u8, place: u8) -> LastCell
    requires side { m ≤ 6 }
    requires first { 1 ≤ place }
    ensures own { place ≤ m → IsLastHouse m place result.mask result.seed result.across_bit }
    ensures elsewhere { m < place → IsNoHouse result.mask result.seed result.across_bit }
{
    if place > m {
        return LastCell {
            mask: 0,
            seed: 1,
            across_bit: 0,
        };
    }
    let seed = row_with(House::new(place), 1);
    LastCell {
        mask: 31 * seed,
        seed,
        across_bit: 30 + 5 * (m - place),
    }
}

impl Sowing {
    /// Returns how the `count` seeds of house `h` are sown, on sides of `m` houses.
    pub(super) fn new(m: u8, h: u8, count: u8) -> Sowing
        requires first { 1 ≤ h }
        requires last { h ≤ m }
        requires side { m ≤ 6 }
        requires few { count < 32 }
        ensures { IsSowing m h count result }
    {
        let gains = own_gains(m, h, count) + OTHER_ROW_UNIT * other_gains(m, h, count);
        let place = (h - 1 + count) % (2 * m + 1) + 1;
        let last = last_cell(m, place);
        Sowing {
            loses: row_with(House::new(h), count as u64).wrapping_sub(gains),
            last_mask: last.mask,
            last_seed: last.seed,
            across_bit: last.across_bit,
            store: store_gains(m, h, count),
            again: place == m + 1,
        }
    }
}

/// The sowings of all houses, by the number of houses a side and the number of seeds. A move by this table takes less work.
#[derive(Drop)]
pub struct SowingTable {
    cells: [Sowing; CELLS],
}

impl Model for SowingTable {
    ghost use Rattle.kalah_rules.specs.{SowingTable.{AreSowings}, declared.houses.sowing_table.TheConstants.{CELLS}};

    ghost Value = { Unit {0} };

    ghost view = { λ _. tt };

    ghost invariant = { λ s. AreSowings CELLS s.cells };
}

// Fills the cells of no house.
const NO_SOWING: Sowing = Sowing {
    loses: 0,
    last_mask: 0,
    last_seed: 1,
    across_bit: 0,
    store: 0,
    again: false,
};

// Returns the sowing of cell `i`, or `NO_SOWING` if the cell is no house's.
fn sowing_at(i: usize) -> Sowing
    requires { i < CELLS }
    ensures { (m h c : ℕ) → IsSowingCell m h c i → IsSowing m h c result }
{
    let group = (i / 32) as u8;
    let count = (i % 32) as u8;
    if group > 0 && group % 5 == 0 {
        return Sowing::new(6, group / 5, count);
    }
    let m = group % 5 + 1;
    let h = group / 5 + 1;
    if h > m {
        return NO_SOWING;
    }
    Sowing::new(m, h, count)
}

impl SowingTable {
    /// Makes the table, with the sowing of each house for 0 to 31 seeds.
    pub fn new() -> SowingTable {
        let mut cells = [NO_SOWING; CELLS];
        for i in 0..CELLS {
            cells[i] = sowing_at(i);
        }
        SowingTable { cells }
    }

    /// Returns how the `count` seeds of a house are sown, on sides of `m` houses.
    #[inline(always)]
    pub(super) fn get(&self, m: u8, house: House, count: u8) -> Sowing
        requires last { house ≤ m }
        requires side { m ≤ 6 }
        requires few { count < 32 }
        ensures { IsSowing m house count result }
    {
        self.cells[32 * house.index_in(m) + count as usize]
    }
}
