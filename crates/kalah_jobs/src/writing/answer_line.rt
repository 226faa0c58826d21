//! Answer lines, as text and written to a sink.
ghost use Rattle.std.specs.{Prelude.{◌≡◌, ◌+◌, ◌*◌, ◌≤◌, ◌↔◌, ◌∷◌, [], ◌++◌, true, false, IfOk, IsErr, OnOk, drop, length, codes, decimal, string_bytes}, Io.KnownBytes.{Appends}};
ghost use Rattle.kalah_jobs.specs.{Files.Lines.{line_feed}, Writing.{Answer.{answer_line, answer_output, joined_text, value_text, values_text, HasOneText}, Sink.{AppendsPrefix, WasGiven}}};

use crate::writing::answer::{Answer, Taken};
use crate::writing::named_text::write_named;
use crate::writing::sink::Sink;
use crate::writing::stack_text::{ROOM, StackText};
use crate::writing::steps::{push_line, text_of_steps, write_steps, write_steps_in_line};
use kalah_solve::{MoveValue, MoveValues};
use std::alloc::{AllocError, Global};
use std::io;

// The most bytes of a value with its house, by their types: 3 for a `u8`, 11 for an `i32`, and a colon.
const MOST_VALUE_BYTES: usize = 15;

// The most bytes of an answer in one line: six values, with a byte for a space after each.
const MOST_ANSWER_BYTES: usize = 96;

// The most bytes between the name of a file and the answer: 20 for a `u64`, a colon and a space.
const MOST_PLACE_BYTES: usize = 22;

// Puts the value of a move, with its house before it, in front of the text.
fn prepend_value(text: &mut StackText, value: MoveValue)
    requires { length text.old + MOST_VALUE_BYTES ≤ ROOM }
    ensures value { text.new ≡ value_text value ++ text.old }
    ensures short { length text.new ≤ length text.old + MOST_VALUE_BYTES }
{
    text.prepend_margin(i32::from(value.value));
    text.prepend(":");
    text.prepend_u8(value.house);
}

// Puts the values of the moves from place `i` on, with a space between any two, in front of the text.
#[tactic(auto, using(crate::proofs::TextLemmas::last_value))]
fn prepend_values(text: &mut StackText, values: &MoveValues, i: u8)
    requires within { i ≤ length values.now }
    requires room { length text.old + MOST_ANSWER_BYTES ≤ ROOM }
    ensures values { text.new ≡ values_text (drop i values.now) ++ text.old }
    ensures short { length text.new + (MOST_VALUE_BYTES + 1) * i ≤ length text.old + MOST_ANSWER_BYTES }
{
    let count = values.len();
    if i == count {
        return;
    }
    let value = values.get(i);
    if i + 1 == count {
        return prepend_value(text, value);
    }
    prepend_values(text, values, i + 1);
    text.prepend(" ");
    prepend_value(text, value);
}

// Puts the text of an answer in one line in front of the text.
#[inline(always)]
fn prepend_joined_text(text: &mut StackText, answer: &Answer)
    requires room { length text.old + MOST_ANSWER_BYTES ≤ ROOM }
    requires one_line { HasOneText answer.now }
    ensures joined { text.new ≡ joined_text answer.now ++ text.old }
    ensures short { length text.new ≤ length text.old + MOST_ANSWER_BYTES }
{
    match *answer {
        Answer::Best { margin, house } => {
            text.prepend_u8(house);
            text.prepend(" house ");
            text.prepend_margin(margin);
        }
        Answer::Over { margin } => {
            text.prepend(" over");
            text.prepend_margin(margin);
        }
        Answer::Values(values) => prepend_values(text, &values, 0),
        Answer::Steps(_) => {}
        Answer::Fault(fault) => {
            text.prepend(fault.word());
            text.prepend("fault ");
        }
    }
}

// Puts what stands between the name of the file and the text of the answer in front of the text.
#[tactic(auto, using(crate::proofs::TextLemmas::u64_length))]
#[inline]
fn prepend_place(text: &mut StackText, line: u32)
    requires { length text.old + MOST_PLACE_BYTES ≤ ROOM }
    ensures place { text.new ≡ codes ":" ++ (decimal (line + 1) ++ (codes " " ++ text.old)) }
    ensures short { length text.new ≤ length text.old + MOST_PLACE_BYTES }
{
    text.prepend(" ");
    text.prepend_number(u64::from(line) + 1);
    text.prepend(":");
}

/// Returns the answer line of a line of the file `name`, without a line feed: `NAME:LINE MARGIN house H`, `NAME:LINE MARGIN over`,
/// `NAME:LINE H:V H:V ..` or `NAME:LINE fault WORD`. LINE counts from 1, and a negative MARGIN has a `-` in front. Of steps it is
/// a line `NAME:LINE H POSITION again`, `turn` or `over` for each legal house, with a line feed between any two.
///
/// Fails with `AllocError` only if memory was refused.
pub fn answer_text(alloc: Global, name: &str, taken: &Taken) -> Result<String, AllocError>
    ensures { IfOk result (λ text. string_bytes text ≡ answer_line name.now taken.now) }
{
    let mut rest = StackText::new();
    if let Answer::Steps(board) = &taken.answer {
        prepend_place(&mut rest, taken.line);
        return text_of_steps(alloc, name, rest.as_str(), board);
    }
    prepend_joined_text(&mut rest, &taken.answer);
    prepend_place(&mut rest, taken.line);
    let mut text = String::new(alloc);
    push_line(&mut text, true, name, rest.as_str())?;
    Ok(text)
}

/// Writes what `write_answer` does, unless the sink has failed, and allocates nothing.
// Out of line, so that the loop that collects keeps its variables in registers.
#[inline(never)]
pub fn write_answer_unless_failed<W: Sink>(out: &mut W, name: &str, taken: &Taken)
    ensures { WasGiven W.state out.old out.new (answer_output name.now taken.now) }
{
    let mut text = StackText::new();
    match &taken.answer {
        Answer::Steps(board) => {
            prepend_place(&mut text, taken.line);
            write_steps(out, name, text.as_str(), board);
        }
        _ => {
            text.prepend("\n");
            prepend_joined_text(&mut text, &taken.answer);
            prepend_place(&mut text, taken.line);
            write_named(out, name, &mut text);
        }
    }
}

/// Writes the answer line of a line of the file `name`, as `answer_text` returns it, and a line feed; of steps the line of each.
///
/// It allocates nothing. Fails with an error of kind `Other` exactly when the sink has failed afterwards; then a prefix of this was
/// written, and nothing else.
#[inline(always)]
pub fn write_answer<W: Sink>(out: &mut W, name: &str, taken: &Taken) -> Result<(), io::Error>
    requires { (W.state out.old).has_failed ≡ false }
    ensures fails { IsErr result ↔ ((W.state out.new).has_failed ≡ true) }
    ensures adds { OnOk result (Appends (W.state out.old).written (W.state out.new).written (answer_output name.now taken.now)) }
    ensures start { AppendsPrefix (W.state out.old).written (W.state out.new).written (answer_output name.now taken.now) }
{
    write_answer_unless_failed(out, name, taken);
    if out.failed() {
        return Err(io::Error::from(io::ErrorKind::Other));
    }
    Ok(())
}

/// Writes the text of an answer in one line, and a line feed.
pub(crate) fn write_joined_text<W: Sink>(out: &mut W, answer: &Answer)
    ensures { WasGiven W.state out.old out.new (joined_text answer.now ++ line_feed ∷ []) }
{
    match answer {
        Answer::Steps(board) => write_steps_in_line(out, board),
        _ => {
            let mut text = StackText::of("\n");
            prepend_joined_text(&mut text, answer);
            text.write_to(out);
        }
    }
}
