//! Words of endings: each stores how many seeds the mover wins, for sixteen values of houses.
ghost use Rattle.std.specs.Prelude.{◌≡◌, ◌<◌, ◌+◌, ◌*◌, ◌^◌, IfOk};
ghost use Rattle.kalah_rules.specs.Position.{AreWithinLimits};
ghost use Rattle.kalah_solve.specs.{Table.{RowRank.{rank_of_houses}, EndingTable.{IsEnding, stored_at, word_index}}, declared.table.ending_table.words.TheConstants.{WORDS}};

use atomic_table::{Play, Table as WordTable, TableRule};
use kalah_rules::{Houses, Rule};
use std::alloc::{AllocError, Allocator};

// The index of the first word of the variant of a rule with m houses a side. A variant has an ending of up to 9 seeds for each way to
// choose 2m of 2m + 9 things, and a word for each sixteen of them, rounded up. The last one is where they end; no
// variant begins there.
const FIRST_WORDS: [u32; 8] = [0, 0, 4, 49, 362, 1_882, 7_656, RULE_WORDS];

// The number of words for all variants of a rule.
const RULE_WORDS: u32 = 26_027;

/// The number of words for all endings, by both rules.
pub(super) const WORDS: usize = 2 * RULE_WORDS as usize;

/// The words, which threads share. What a word states is true of the endings that have this word, whichever thread wrote it.
pub(super) type EndingWords<A> = WordTable<(), (), (), TrueWords, A>;

/// The rule of the words between any two steps: what each states is true.
pub(super) struct TrueWords;

impl TableRule<(), (), ()> for TrueWords {
    ghost use Rattle.kalah_solve.specs.Table.EndingTable.{AreTrueWords};

    ghost holds = { λ _ table. AreTrueWords table.words };

    ghost first = { λ _. tt };
}

/// A word is read: what it states is true.
pub(super) struct ReadWord;

impl Play<(), ()> for ReadWord {
    ghost use Rattle.kalah_solve.specs.Table.EndingTable.{HoldsWon};

    ghost then = { λ step _ found _. HoldsWon step.word found };
}

/// A word is written.
pub(super) struct WriteWord;

impl Play<(), ()> for WriteWord {
    ghost then = { λ _ _ _ _. Unit {0} };
}

/// Returns the index of the word for houses of this rank in their variant.
#[tactic(auto, using(crate::proofs::EndingLemmas::word_inside))]
pub(super) fn word_index(houses: &Houses, rank: u32) -> usize
    requires rank { rank ≡ rank_of_houses houses.now }
    requires ending { IsEnding houses.now }
    ensures word { result ≡ word_index houses.now }
    ensures inside { result < WORDS }
    ensures limits { AreWithinLimits houses.now }
{
    let first = FIRST_WORDS[houses.m() as usize];
    let of_rule = match houses.rule() {
        Rule::Classic => first,
        Rule::EmptyCapture => first + RULE_WORDS,
    };
    (of_rule + rank / 16) as usize
}

/// Returns what a word stores at `at`: 0 if nothing is known, otherwise one more than the mover wins.
pub(super) fn stored_at(word: u64, at: u32) -> u64
    requires { at < 16 }
    ensures { result ≡ stored_at word at }
{
    (word >> (4 * at)) % 16
}

/// Returns the word with `stored` at a place that was empty.
pub(super) fn with_stored(word: u64, at: u32, stored: u64) -> u64
    requires place { at < 16 }
    requires nothing { stored_at word at ≡ 0 }
    requires small { stored < 16 }
    ensures { result ≡ word + stored * 2 ^ (4 * at) }
{
    word + (stored << (4 * at))
}

/// Makes this many words, with no ending known.
#[tactic(auto, using(crate::proofs::EndingLemmas::zeros_are_true))]
pub(super) fn empty_words<A: Allocator + Clone>(
    alloc: A,
    count: usize,
) -> Result<EndingWords<A>, AllocError>
    ensures { IfOk result (λ words. words.shared.table_id.words ≡ count) }
{
    let empty = Vec::from_elem(alloc.clone()?, 0u64, count)?;
    Ok(WordTable::of_words(alloc, &empty, &())?.0)
}
