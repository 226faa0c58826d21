//! Laws of lines, over the definitions that the contracts use.
ghost use Rattle.kalah_jobs.specs.Line.LineLaws.{NoLineReadsTwice, EveryLineIsItsText, EveryTextIsReadBack, PlainLinesReadTheSame, OnlyTheSuffixNamesTheRule};

/// No line is read as two positions.
pub fn no_line_reads_twice()
    ensures { NoLineReadsTwice }
{}

/// A line that is read is the text of its position, but for a CR at its end.
#[tactic(auto, using(crate::proofs::LineTextLemmas::every_line_is_its_text))]
pub fn every_line_is_its_text()
    ensures { EveryLineIsItsText }
{}

/// The text of every position within the limits of a line is read as that position.
pub fn every_text_is_read_back()
    ensures { EveryTextIsReadBack }
{}

/// What is read by a program that knows only the classic rule, and allows fewer seeds, is read here as the same position.
pub fn plain_lines_read_the_same()
    ensures { PlainLinesReadTheSame }
{}

/// Of the lines that are read, those that end in ` e` are under the empty-capture rule, and all others under the classic one.
pub fn only_the_suffix_names_the_rule()
    ensures { OnlyTheSuffixNamesTheRule }
{}
