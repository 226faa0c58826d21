//! A house of a row, by where it begins.
ghost use Rattle.std.specs.Prelude.{◌≡◌, ◌-◌, ◌*◌, ◌≤◌, ◌<◌};

use std::marker::Model;

/// A house of a row, 1 to 6. It is stored as the bit at which it begins in a row's number, which is what a move needs of it.
#[derive(Clone, Copy)]
pub struct House {
    bit: u8,
}

impl Model for House {
    ghost use Rattle.std.specs.Prelude.{ℕ, ◌+◌, ◌-◌, ◌*◌, ◌/◌};
    ghost use Rattle.kalah_rules.specs.Fields.{BeginsHouse, bit_of_house};

    ghost Value = { ℕ };

    ghost view = { λ house. house.bit / 5 + 1 };

    ghost invariant = { λ house. BeginsHouse house.bit };

    ghost inverse = { λ h. record { bit = 5 * (h - 1) } };

    ghost inverse_ok = { λ house h i. record { bit = bit_of_house h i } };
}

impl House {
    ghost use Rattle.std.specs.Prelude.{◌+◌, ◌/◌};
    ghost use Rattle.kalah_rules.specs.Fields.{BeginsHouse};

    /// Returns house `h`, which is 1 to 6.
    #[inline(always)]
    pub fn new(h: u8) -> House
        requires first { 1 ≤ h }
        requires last { h ≤ 6 }
        ensures { result ≡ h }
    {
        House { bit: 5 * (h - 1) }
    }

    /// Returns the house that begins at this bit of a row's number: 0, 5, 10, 15, 20 or 25.
    #[inline(always)]
    pub fn at(bit: u8) -> House
        requires { BeginsHouse bit }
        ensures { result ≡ bit / 5 + 1 }
    {
        House { bit }
    }

    /// Returns the number of the house, 1 to 6.
    #[inline(always)]
    pub fn number(self) -> u8
        ensures value { result ≡ self }
        ensures first { 1 ≤ result }
        ensures last { result ≤ 6 }
    {
        self.bit / 5 + 1
    }

    /// Returns the index of this house among the houses of all sides, where sides have `m` houses. House `h` of `m` has
    /// `m + 5 * (h - 1) - 1`: sides of 1 to 5 houses have 0 to 4, 6 to 9, 12 to 14, 18, 19 and 24, and sides of 6 the multiples of 5 that
    /// these leave free.
    #[inline(always)]
    pub(crate) fn index_in(self, m: u8) -> usize
        requires last { self ≤ m }
        requires side { m ≤ 6 }
        ensures value { result ≡ m + 5 * (self - 1) - 1 }
        ensures first { 1 ≤ self }
        ensures small { result < 31 }
    {
        (m + self.bit - 1) as usize
    }

    /// Returns the bit at which the house begins in a row's number.
    #[inline(always)]
    pub fn bit(self) -> u8
        ensures value { result ≡ 5 * (self - 1) }
        ensures first { 1 ≤ self }
        ensures last { self ≤ 6 }
    {
        self.bit
    }
}
