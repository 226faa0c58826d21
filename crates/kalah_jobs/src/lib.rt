//! Position lines and files, the answers to them, and how both are written.
#![tactic(auto)]

mod asking;
mod collecting;
mod files;
mod limits;
mod line;
#[cfg(test)]
mod tests;
mod writing;

pub use asking::answer_lines::answer_lines;
pub use asking::ask_fault::AskFault;
pub use asking::laws::answers_are_those_of_a_file;
pub use collecting::collector::Collector;
pub use collecting::laws::{
    accepts_each_job_once, answers_in_one_way, gets_each_job_once, keeps_its_law,
};
pub use collecting::outcome::Outcome;
pub use collecting::refusal::Refusal;
pub use files::entry::Entry;
pub use files::file_text::FileText;
pub use files::job::Job;
pub use files::jobs::{Jobs, JobsFault};
pub use files::laws::{entries_are_one, lines_are_one};
pub use files::question::Question;
pub use limits::{MOST_FILE_BYTES, MOST_FILES, MOST_LINE_BYTES, MOST_LINES, limits_of_reading};
pub use line::laws::{
    every_line_is_its_text, every_text_is_read_back, no_line_reads_twice,
    only_the_suffix_names_the_rule, plain_lines_read_the_same,
};
pub use line::line_fault::LineFault;
pub use line::reading::read_line;
pub use writing::answer::{Answer, Taken};
pub use writing::answer_line::{answer_text, write_answer, write_answer_unless_failed};
pub use writing::counts::{write_total, write_ways};
pub use writing::laws::{files_are_their_jobs, files_split_between_lines, output_splits_by_files};
pub use writing::picture::write_picture;
pub use writing::position_text::{line_text, step_text, write_step};
pub use writing::sink::{Sink, flush_unless_failed, write_unless_failed};
pub use writing::stream::{Stream, write_pieces};
pub use writing::tally::Tally;
pub use writing::values_line::write_values;
pub use writing::variation::{write_next_house, write_variation_start};
