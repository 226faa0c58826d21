//! The numbers of ways to play on, as lines.
ghost use Rattle.std.specs.Prelude.{◌≤◌};
ghost use Rattle.kalah_rules.specs.Limits.{most_houses};
ghost use Rattle.kalah_jobs.specs.Writing.{Counts.{ways_line, total_line}, Sink.{WasGiven}};

use crate::writing::sink::Sink;
use crate::writing::stack_text::StackText;

/// Writes a house, which is at most 6, and the number of ways to play on after its move, as the line `1 42`.
#[tactic(auto, using(crate::proofs::TextLemmas::u64_length))]
pub fn write_ways<W: Sink>(out: &mut W, house: u8, ways: u64)
    requires { house ≤ most_houses }
    ensures { WasGiven W.state out.old out.new (ways_line house ways) }
{
    let mut text = StackText::of("\n");
    text.prepend_number(ways);
    text.prepend(" ");
    text.prepend_u8(house);
    text.write_to(out);
}

/// Writes the number of all ways to play on, as the line `total 42`.
#[tactic(auto, using(crate::proofs::TextLemmas::u64_length))]
pub fn write_total<W: Sink>(out: &mut W, ways: u64)
    ensures { WasGiven W.state out.old out.new (total_line ways) }
{
    let mut text = StackText::of("\n");
    text.prepend_number(ways);
    text.prepend("total ");
    text.write_to(out);
}
