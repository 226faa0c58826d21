//! A name and the text after it, written to a sink.
ghost use Rattle.std.specs.Prelude.{◌++◌};
ghost use Rattle.kalah_jobs.specs.Writing.Sink.{WasGiven};

use crate::writing::sink::{Sink, write_unless_failed};
use crate::writing::stack_text::StackText;

// Writes the name and then the text, each by one call of the sink.
#[cold]
#[inline(never)]
fn write_apart<W: Sink>(out: &mut W, name: &str, text: &StackText)
    ensures { WasGiven W.state out.old out.new (name.now ++ text.now) }
{
    write_unless_failed(out, name.as_bytes());
    text.write_to(out);
}

/// Writes the name and then the text, by one call of the sink. If the name is too long to be put in front of the text, there are two.
#[inline(always)]
pub(crate) fn write_named<W: Sink>(out: &mut W, name: &str, text: &mut StackText)
    ensures { WasGiven W.state out.old out.new (name.now ++ text.old) }
{
    if name.len() > text.room() {
        write_apart(out, name, text);
    } else {
        text.prepend(name);
        text.write_to(out);
    }
}
