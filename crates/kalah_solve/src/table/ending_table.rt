//! The exact number of seeds that the mover wins of houses with few seeds, mostly kept once it is known.
ghost use Rattle.std.specs.Prelude.{◌≡◌, ◌<◌, ◌+◌, ◌*◌, ◌/◌, ◌%◌, ◌^◌, ◌++◌, IfSome};
ghost use Rattle.kalah_rules.specs.{Position.{AreWithinLimits}, Key.{packed_row}};
ghost use Rattle.kalah_solve.specs.{Table.{RowRank.{packed_sums, rank_of_houses}, EndingTable.{IsEnding, AreBinomials, binomial_at, ArePairs, pair_at}}, Bounds.Won.{won}, declared.table.ending_table.TheConstants.{COUNTS, BINOMIALS, PAIRS}};

mod exact;
#[cfg(test)]
mod tests;
mod words;

use crate::table::ending_table::words::{
    EndingWords, ReadWord, WORDS, WriteWord, empty_words, stored_at, with_stored, word_index,
};
use kalah_rules::{Houses, SowingTable};
use std::alloc::{AllocError, Allocator, Global};
use std::marker::Model;

/// The most seeds of an ending.
pub(crate) const MOST_ENDING_SEEDS: u8 = 9;

// How many numbers of seeds houses of an ending can have: 0 to the most.
const COUNTS: usize = MOST_ENDING_SEEDS as usize + 1;

// The cells of the binomial coefficients: for each house of both players, one for each number of seeds.
const BINOMIALS: usize = 12 * COUNTS;

// The cells of the pairs for one number of pairs past them, indexed by the sum from the second house on and the sum from the first on. The
// latter has 32 cells, for its five bits.
const CELLS_OF_PAIR: usize = COUNTS * 32;

// The cells of the pairs of six houses a side.
const PAIRS: usize = 6 * CELLS_OF_PAIR;

// The inverse of 31 modulo 2^64: a multiple of 31 is divided by 31 if it is multiplied by this.
const INVERSE_OF_31: u64 = 0xEF7B_DEF7_BDEF_7BDF;

/// The known endings: one word for each sixteen of them with consecutive ranks. Threads may share it.
#[derive(Drop)]
pub(crate) struct EndingTable<A: Allocator = Global> {
    words: EndingWords<A>,
    pairs: [u32; PAIRS],
    // One for all tables that share endings: its sowings are computed once.
    pub(crate) sowings: SowingTable,
}

impl<A: Allocator> Model for EndingTable<A> {
    ghost use Rattle.kalah_solve.specs.{Table.EndingTable.{ArePairs}, declared.table.ending_table.TheConstants.{PAIRS}};
    ghost use Rattle.std.specs.Prelude.{◌≡◌};
    ghost use Rattle.kalah_solve.specs.declared.table.ending_table.words.TheConstants.{WORDS};

    ghost Value = { Unit {0} };

    ghost view = { λ _. tt };

    ghost invariant = { λ e. ArePairs PAIRS e.pairs × (e.words.shared.table_id.words ≡ WORDS) };
}

// Returns cell `i` of the binomials, from the cells before it.
#[tactic(auto, using(crate::proofs::RankLemmas::binomial_first, crate::proofs::RankLemmas::binomial_next, crate::proofs::RankLemmas::binomial_small))]
fn binomial(binomials: &[u32; BINOMIALS], i: usize) -> u32
    requires inside { i < BINOMIALS }
    requires before { AreBinomials i binomials.now }
    ensures { result ≡ binomial_at i }
{
    if i < COUNTS {
        return i as u32;
    }
    if i % COUNTS == 0 {
        return 0;
    }
    binomials[i - COUNTS] + binomials[i - 1]
}

// Returns the table of binomial coefficients.
#[tactic(auto, using(crate::proofs::RankLemmas::binomials_more))]
fn binomials() -> [u32; BINOMIALS]
    ensures { AreBinomials BINOMIALS result }
{
    let mut binomials = [0u32; BINOMIALS];
    for i in 0..BINOMIALS {
        binomials[i] = binomial(&binomials, i);
    }
    binomials
}

// Returns cell `i` of the pairs, from the binomials.
fn pair_cell(binomials: &[u32; BINOMIALS], i: usize) -> u32
    requires inside { i < PAIRS }
    requires binomials { AreBinomials BINOMIALS binomials.now }
    ensures { i % 32 < COUNTS → result ≡ pair_at i }
{
    let first = i % 32;
    let second = i / 32 % COUNTS;
    let cells_past = i / CELLS_OF_PAIR * 2;
    if first >= COUNTS {
        return 0;
    }
    binomials[COUNTS * (cells_past + 1) + first] + binomials[COUNTS * cells_past + second]
}

// Returns the table of pairs.
#[tactic(auto, using(crate::proofs::RankLemmas::pairs_more))]
fn pairs() -> [u32; PAIRS]
    ensures { ArePairs PAIRS result }
{
    let binomials = binomials();
    let mut pairs = [0u32; PAIRS];
    for i in 0..PAIRS {
        pairs[i] = pair_cell(&binomials, i);
    }
    pairs
}

// Returns the number of seeds from each house on in the row of both players' houses: a number with five bits for each.
fn sums_of(houses: &Houses) -> u64
    ensures sums { result ≡ packed_sums (houses.now.own ++ houses.now.other) }
    ensures limits { AreWithinLimits houses.now }
{
    let seeds = houses.seeds() as u64;
    let row = houses.own_row() + (houses.other_row() << (5 * houses.m() as u32));
    seeds + (row - seeds).wrapping_mul(INVERSE_OF_31) * 32
}

impl<A: Allocator + Clone> EndingTable<A> {
    /// Makes a table with nothing known and room for all words.
    pub(crate) fn new(alloc: A) -> Result<EndingTable<A>, AllocError> {
        Ok(EndingTable {
            words: empty_words(alloc, WORDS)?,
            pairs: pairs(),
            sowings: SowingTable::new(),
        })
    }

    // Returns the rank of the houses among those of their variant. Each step adds what two cells add, with `5 - step` pairs past them. The
    // loop has six steps for any number of houses, so that it can be unrolled.
    #[inline(always)]
    fn rank(&self, houses: &Houses) -> u32
        requires { IsEnding houses.now }
        ensures rank { result ≡ rank_of_houses houses.now }
        ensures small { result < 2 ^ 21 }
    {
        let m = houses.m() as usize;
        let mut sums = sums_of(houses);
        let mut rank = 0;
        for step in 0..6usize {
            if step + m >= 6 {
                rank += self.pairs[CELLS_OF_PAIR * (5 - step) + (sums % 1024) as usize];
                sums /= 1024;
            }
        }
        rank
    }

    // Returns how many seeds the mover wins, if it is known.
    fn look_up(&self, houses: &Houses, rank: u32) -> Option<u8>
        requires rank { rank ≡ rank_of_houses houses.now }
        requires ending { IsEnding houses.now }
        ensures { IfSome result (λ t. t ≡ won houses.now) }
    {
        let words = &self.words.shared;
        let (word, _) = words.load_new_seat::<ReadWord>(word_index(houses, rank));
        let stored = stored_at(word, rank % 16);
        if stored == 0 {
            return None;
        }
        Some(stored as u8 - 1)
    }

    // Stores how many seeds the mover wins. No clause says that it is kept: see `table.rt`.
    fn keep(&self, houses: &Houses, rank: u32, known: u8)
        requires rank { rank ≡ rank_of_houses houses.now }
        requires known { known ≡ won houses.now }
        requires ending { IsEnding houses.now }
    {
        let words = &self.words.shared;
        let at = word_index(houses, rank);
        let (word, _) = words.load_new_seat::<ReadWord>(at);
        if stored_at(word, rank % 16) == 0 {
            let word = with_stored(word, rank % 16, known as u64 + 1);
            words.swap_new_seat::<WriteWord>(at, word);
        }
    }
}
