//! One line to be answered.
use crate::files::entry::Entry;

/// A line of a file, with its entry. Files and lines count from 0.
#[derive(Clone, Copy, Debug, PartialEq, Eq)]
pub struct Job {
    /// The number of the file.
    pub file: u32,
    /// The number of the line in its file.
    pub line: u32,
    /// The entry of the line.
    pub entry: Entry,
}
