//! Rows of six cells, and rows of houses as numbers, with five bits for each house, house 1 lowest.
ghost use Rattle.std.specs.Prelude.{◌≡◌, ◌+◌, ◌-◌, ◌*◌, ◌/◌, ◌%◌, ◌^◌, ◌<◌, ◌≤◌};
ghost use Rattle.kalah_rules.specs.{Key.{cells, rule_bit}, Fields.{ones, ones_up_to}, SowingTable.{own_gains, other_gains, store_gains}, declared.houses.numbers.TheConstants.{MOST_LAPS, ONE_EACH}};

use crate::houses::house::House;
use crate::rule::Rule;

/// The factor of the opponent's houses in a key: they begin at bit 30.
pub(super) const OTHER_ROW_UNIT: u64 = 0x4000_0000;

/// The factor of the number of houses a side in a key: it begins at bit 60.
pub(super) const SIDE_UNIT: u64 = 0x1000_0000_0000_0000;

/// The bit of the rule in a key, bit 63.
pub(super) const RULE_UNIT: u64 = 0x8000_0000_0000_0000;

/// Returns the cells of the lowest thirty bits.
pub(super) fn cells_of(number: u64) -> [u8; 6]
    ensures { result ≡ cells 6 number }
{
    let second = number / 32;
    let third = second / 32;
    let fourth = third / 32;
    let fifth = fourth / 32;
    let sixth = fifth / 32;
    [
        (number % 32) as u8,
        (second % 32) as u8,
        (third % 32) as u8,
        (fourth % 32) as u8,
        (fifth % 32) as u8,
        (sixth % 32) as u8,
    ]
}

/// Returns the number of the variant with `m` houses a side and this rule.
pub(super) fn variant_number(m: u8, rule: Rule) -> u32
    ensures { result ≡ m + 8 * rule_bit rule }
{
    match rule {
        Rule::Classic => m as u32,
        Rule::EmptyCapture => m as u32 + 8,
    }
}

/// Returns the rule of a bit.
pub(super) fn rule_of_bit(bit: u64) -> Rule
    requires { bit ≤ 1 }
    ensures { rule_bit result ≡ bit }
{
    if bit == 0 {
        Rule::Classic
    } else {
        Rule::EmptyCapture
    }
}

/// Returns the number of seeds in a house of a row.
#[inline(always)]
#[tactic(auto, using(crate::proofs::KeyLemmas::pow_five))]
pub(super) fn seeds_at(row: u64, house: House) -> u64
    ensures { result ≡ row / 32 ^ (house - 1) % 32 }
{
    (row >> house.bit()) % 32
}

/// Returns a row with `seeds` seeds in this house, and none elsewhere.
#[inline(always)]
#[tactic(auto, using(crate::proofs::KeyLemmas::pow_five, crate::proofs::KeyLemmas::moved_fits))]
pub(super) fn row_with(house: House, seeds: u64) -> u64
    requires { seeds < 32 }
    ensures { result ≡ 32 ^ (house - 1) * seeds }
{
    seeds << house.bit()
}

/// A row with one seed in each of six houses.
pub const ONE_EACH: u64 = 0x210_8421;

// The most laps of a sowing: 31 seeds on laps of three cells.
const MOST_LAPS: u8 = 10;

// One seed in each of the first n houses, by n.
static ONES: [u64; 7] = [0, 1, 0x21, 0x421, 0x8421, 0x10_8421, ONE_EACH];

/// Returns a row with one seed in each of the first `n` houses, at most six.
pub fn one_each(n: u8) -> u64
    requires { n ≤ 6 }
    ensures value { result ≡ ones n }
    ensures small { result ≤ ONE_EACH }
{
    ONES[n as usize]
}

// What the move of a house adds to both rows, modulo 2^64, if its last seed falls into the store without a lap: a seed in each later house
// of its side, less the seeds of the house. A line for each house, with a cell for each number of houses a side from the house's own number
// on, as `House::index_in` counts them; 0 where there is no such house. The cell of house 2 of 4: a seed in house 3 (0x400) and one in
// house 4 (0x8000), less three in house 2 (0x60), are 0x83A0.
#[rattlefmt::skip]
static INTO_STORE: [u64; 31] = [
    0xFFFF_FFFF_FFFF_FFFF, 0x1E, 0x41D, 0x841C, 0x10_841B, 0x210_841A,
    0xFFFF_FFFF_FFFF_FFE0, 0x3C0, 0x83A0, 0x10_8380, 0x210_8360, 0,
    0xFFFF_FFFF_FFFF_FC00, 0x7800, 0x10_7400, 0x210_7000, 0, 0,
    0xFFFF_FFFF_FFFF_8000, 0xF_0000, 0x20E_8000, 0, 0, 0,
    0xFFFF_FFFF_FFF0_0000, 0x1E0_0000, 0, 0, 0, 0,
    0xFFFF_FFFF_FE00_0000,
];

/// Returns what the move of this house of `m` adds to both rows, modulo 2^64, if it has `m + 1 - house` seeds.
#[inline(always)]
pub(super) fn into_store(m: u8, house: House) -> u64
    requires side { m ≤ 6 }
    requires last { house ≤ m }
    ensures { (result + 32 ^ (house - 1) * (m + 1 - house)) % 2 ^ 64 ≡ ones m - ones house }
{
    INTO_STORE[house.index_in(m)]
}

/// Returns a row of `m` houses with one seed in each house up to `x`.
#[tactic(auto, using(crate::proofs::KeyLemmas::ones_of_least))]
pub(super) fn ones_up_to(m: u8, x: u8) -> u64
    requires { m ≤ 6 }
    ensures value { result ≡ ones_up_to m x }
    ensures small { result ≤ ONE_EACH }
{
    one_each(x.min(m))
}

/// Returns a row of `m` houses with `seeds` seeds in each.
#[tactic(auto, using(crate::proofs::KeyLemmas::product_small))]
pub(super) fn same_in_each(m: u8, seeds: u8) -> u64
    requires side { m ≤ 6 }
    requires few { seeds ≤ MOST_LAPS }
    ensures value { result ≡ seeds * ones m }
    ensures small { result ≤ MOST_LAPS * ONE_EACH }
{
    seeds as u64 * one_each(m)
}

/// Returns what the mover's houses gain if `count` seeds are sown from house `h` of `m`: a seed in each for each whole lap, and then one in
/// each house that the last lap reaches, before it comes round or after.
#[tactic(auto, using(crate::proofs::KeyLemmas::up_to_past, crate::proofs::KeyLemmas::laps_few))]
pub(super) fn own_gains(m: u8, h: u8, count: u8) -> u64
    requires first { 1 ≤ h }
    requires last { h ≤ m }
    requires side { m ≤ 6 }
    requires few { count < 32 }
    ensures value { result ≡ own_gains m h count }
    ensures small { result < 2 ^ 30 }
{
    let lap = 2 * m + 1;
    let reach = h + count % lap;
    let past = ones_up_to(m, reach) - one_each(h);
    same_in_each(m, count / lap) + past + ones_up_to(m, reach.saturating_sub(lap))
}

/// Returns what the opponent's houses gain by the same sowing.
#[tactic(auto, using(crate::proofs::KeyLemmas::other_gain, crate::proofs::KeyLemmas::laps_few))]
pub(super) fn other_gains(m: u8, h: u8, count: u8) -> u64
    requires first { 1 ≤ h }
    requires last { h ≤ m }
    requires side { m ≤ 6 }
    requires few { count < 32 }
    ensures value { result ≡ other_gains m h count }
    ensures small { result < 2 ^ 30 }
{
    let lap = 2 * m + 1;
    let reach = h + count % lap;
    same_in_each(m, count / lap) + ones_up_to(m, reach.saturating_sub(m + 1))
}

/// Returns what the mover's store gains by it.
#[tactic(auto, using(crate::proofs::KeyLemmas::store_gain))]
pub(super) fn store_gains(m: u8, h: u8, count: u8) -> u8
    requires first { 1 ≤ h }
    requires last { h ≤ m }
    requires side { m ≤ 6 }
    requires few { count < 32 }
    ensures { result ≡ store_gains m h count }
{
    let lap = 2 * m + 1;
    count / lap + u8::from(h + count % lap > m)
}
