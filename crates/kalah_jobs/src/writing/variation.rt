//! The variation of a move: the houses that are moved from it on to the end of the game, in best play.
ghost use Rattle.kalah_jobs.specs.Writing.{Sink.{WasGiven}, Variation.{next_house, variation_start}};

use crate::writing::sink::Sink;
use crate::writing::stack_text::StackText;
use kalah_solve::MoveValue;

/// Writes how the line of a variation begins, as `2  -4  2`: the house of its first move, the value of that move, and the house again.
pub fn write_variation_start<W: Sink>(out: &mut W, value: MoveValue)
    ensures { WasGiven W.state out.old out.new (variation_start value) }
{
    let mut text = StackText::new();
    text.prepend_u8(value.house);
    text.prepend("  ");
    text.prepend_margin(i32::from(value.value));
    text.prepend("  ");
    text.prepend_u8(value.house);
    text.write_to(out);
}

/// Writes a space and the next house of a variation.
pub fn write_next_house<W: Sink>(out: &mut W, house: u8)
    ensures { WasGiven W.state out.old out.new (next_house house) }
{
    let mut text = StackText::new();
    text.prepend_u8(house);
    text.prepend(" ");
    text.write_to(out);
}
