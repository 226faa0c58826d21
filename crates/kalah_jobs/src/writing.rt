//! Answers in words and pictures, and the sinks that they are written to.
pub(crate) mod answer;
pub(crate) mod answer_line;
pub(crate) mod counts;
pub(crate) mod laws;
pub(crate) mod named_text;
pub(crate) mod picture;
pub(crate) mod player;
pub(crate) mod position_text;
pub(crate) mod sink;
pub(crate) mod stack_text;
pub(crate) mod steps;
pub(crate) mod stream;
pub(crate) mod tally;
pub(crate) mod values_line;
pub(crate) mod variation;
