//! The value of each move of a position.
ghost use Rattle.std.specs.Prelude.{◌≡◌, ◌<◌, ◌≤◌, [], ◌∷◌, length, slice_get, MatchOption, Some};
ghost use Rattle.kalah_solve.specs.Solver.MoveValues.{IsMoveValue, digit_of, value_at};

use kalah_rules::{MOST_HOUSES, MOST_IN_PLAY};
use std::marker::Model;

/// A legal move and its value.
#[derive(Clone, Copy, Debug, PartialEq, Eq)]
pub struct MoveValue {
    /// The house that is moved, 1 to 6.
    pub house: u8,
    /// The margin that the player to move gets by it in best play, -130 to 130.
    pub value: i16,
}

// The greatest value, 130: that of a store with all the seeds that can come to it.
const MOST_VALUE: i16 = MOST_IN_PLAY as i16;

// The number of values of a house, from -130 to 130.
const VALUE_COUNT: u64 = 2 * MOST_VALUE as u64 + 1;

// One more than the number of values of all houses. So six digits of this base fit into a word.
const DIGIT_BASE: u64 = MOST_HOUSES as u64 * VALUE_COUNT + 1;

impl MoveValue {
    // Returns the value as a digit.
    fn digit(self) -> u64
        requires { IsMoveValue self }
        ensures { result ≡ digit_of self }
    {
        VALUE_COUNT * u64::from(self.house - 1) + (self.value + MOST_VALUE + 1) as u64
    }

    // Returns the value with this digit, which isn't 0.
    fn of_digit(digit: u64) -> MoveValue
        requires some { 1 ≤ digit }
        requires small { digit < DIGIT_BASE }
        ensures { result ≡ value_at digit }
    {
        let place = digit - 1;
        MoveValue {
            house: (place / VALUE_COUNT + 1) as u8,
            value: (place % VALUE_COUNT) as i16 - MOST_VALUE,
        }
    }
}

/// The values of the legal moves of a position, with their houses in ascending order. They are at most six, and need no allocation.
// They are in one word, so that an answer that holds them is kept in registers.
#[derive(Clone, Copy, Debug, PartialEq, Eq)]
pub struct MoveValues {
    number: u64,
}

impl Model for MoveValues {
    ghost use Rattle.std.{specs.Prelude.{ℕ, List}, proofs.Common.{ap}};
    ghost use Rattle.kalah_solve.specs.declared.solver.move_values.{MoveValues.TheInside.{Inside}, MoveValue.{MoveValue}};
    ghost use Rattle.kalah_solve.specs.Solver.MoveValues.{packed_values, values_in, ArePackedValues};

    ghost Value = { List MoveValue };

    ghost view = { λ values. values_in 6 values.number };

    ghost invariant = { λ values. ArePackedValues 6 values.number };

    ghost inverse = { λ xs. record { number = packed_values xs } };

    ghost inverse_ok = { λ values packed. ap (λ (n : ℕ). let same : Inside = record { number = n } in same) packed };
}

impl MoveValues {
    /// Makes an empty list.
    pub(crate) fn none() -> MoveValues
        ensures { result ≡ [] }
    {
        MoveValues { number: 0 }
    }

    /// Puts a value in front of the others.
    pub(crate) fn prepend(&mut self, value: MoveValue)
        requires room { length self.old < 6 }
        requires small { IsMoveValue value }
        ensures { self.new ≡ value ∷ self.old }
    {
        self.number = value.digit() + DIGIT_BASE * self.number;
    }

    // Returns the first value and those after it, or `None` if there is none.
    fn split_first(&self) -> Option<(MoveValue, MoveValues)>
        ensures split { MatchOption result (self.now ≡ []) (λ split. self.now ≡ split.0 ∷ split.1) }
        ensures few { length self.now ≤ 6 }
    {
        if self.number == 0 {
            return None;
        }
        let rest = MoveValues {
            number: self.number / DIGIT_BASE,
        };
        Some((MoveValue::of_digit(self.number % DIGIT_BASE), rest))
    }

    /// Returns the number of values: 0 if the game is over, otherwise 1 to 6.
    pub fn len(&self) -> u8
        ensures value { result ≡ length self.now }
        ensures few { result ≤ 6 }
    {
        match self.split_first() {
            None => 0,
            Some((_, rest)) => 1 + rest.len(),
        }
    }

    /// Returns the value at index `i`, which counts from 0 and is below `len`.
    pub fn get(&self, i: u8) -> MoveValue
        requires { i < length self.now }
        ensures { slice_get self.now i ≡ Some result }
    {
        match self.split_first() {
            None => unreachable!(),
            Some((first, _)) if i == 0 => first,
            Some((_, rest)) => rest.get(i - 1),
        }
    }
}
