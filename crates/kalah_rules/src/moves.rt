//! The houses that may be moved.
ghost use Rattle.std.specs.{Prelude.{◌≡◌, ℕ, ◌<◌, [], ◌∷◌, ◌++◌, length, slice_index}, Slice.Iter.{iter_rest}};

use std::marker::Model;
use std::slice;

/// The legal moves of a position: the houses that may be moved, in ascending order. At most six.
#[derive(Clone, Copy, Debug, PartialEq, Eq)]
pub struct Moves {
    houses: [u8; 6],
    count: u8,
}

impl Model for Moves {
    ghost use Rattle.std.specs.Prelude.{ℕ, List, length, take};
    ghost use Rattle.kalah_rules.specs.Cells.{padded, AreAtMostSix, length_of_six};

    ghost Value = { List ℕ };

    ghost view = { λ moves. take moves.count moves.houses };

    ghost invariant = { λ moves. AreAtMostSix 0 moves.count moves.houses };

    ghost inverse = { λ xs. record { houses = padded xs; count = length xs } };

    ghost inverse_ok = { λ moves h i. record { houses = h.rest_is_none i; count = length_of_six h i } };
}

impl Moves {
    /// Returns an empty list.
    pub(crate) fn none() -> Moves
        ensures { result ≡ [] }
    {
        Moves {
            houses: [0; 6],
            count: 0,
        }
    }

    /// Appends house `h`.
    pub(crate) fn push(&mut self, h: u8)
        requires { length self.old < 6 }
        ensures { self.new ≡ self.old ++ h ∷ [] }
    {
        self.houses[self.count as usize] = h;
        self.count += 1;
    }

    /// Returns the number of moves: 0 if the game is over, otherwise 1 to 6.
    pub fn len(&self) -> u8
        ensures { result ≡ length self.now }
    {
        self.count
    }

    /// Returns the house at index `i`, which is below `len`.
    pub fn get(&self, i: u8) -> u8
        requires { i < length self.now }
        ensures { result ≡ slice_index self.now i }
    {
        self.houses[i as usize]
    }

    /// Returns an iterator over the houses, in ascending order.
    pub fn iter(&self) -> slice::Iter<'_, u8>
        ensures { iter_rest result ≡ self.now }
    {
        self.houses[..self.count as usize].iter()
    }
}

impl<'a> IntoIterator for &'a Moves {
    type Item = &'a u8;

    type IntoIter = slice::Iter<'a, u8>;

    ghost into_iter_gives = { λ of_them it. iter_rest it ≡ of_them.now };

    fn into_iter(self) -> slice::Iter<'a, u8> {
        self.iter()
    }
}
