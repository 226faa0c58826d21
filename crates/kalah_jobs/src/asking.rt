//! Lines answered one by one, each before the program waits for the next.
pub(crate) mod answer_lines;
pub(crate) mod ask_fault;
pub(crate) mod laws;
pub(crate) mod line_head;
pub(crate) mod prompt_reader;
pub(crate) mod prompt_solver;
pub(crate) mod reply;
