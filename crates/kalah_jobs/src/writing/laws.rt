//! Laws over the output of a batch: what it is by its jobs, and how it can be split over machines.
ghost use Rattle.kalah_jobs.specs.Writing.{Output.{FilesAreTheirJobs}, Splitting.{OutputSplitsByFiles, FilesSplitBetweenLines}};

/// What a batch of files must write and count is the same, whether stated by its files or by its jobs.
#[tactic(auto, using(crate::proofs::WritingLemmas::files_are_their_jobs))]
pub fn files_are_their_jobs()
    ensures { FilesAreTheirJobs }
{}

/// A list of files can be cut anywhere, for each question. Its output is the output for the first part, followed by that for the
/// second. The counts of lines and of faults are the sums of both.
#[tactic(auto, using(crate::proofs::WritingLemmas::output_splits_by_files))]
pub fn output_splits_by_files()
    ensures { OutputSplitsByFiles }
{}

/// A file can be cut between any two lines. Its lines are those of the first part followed by those of the second. So are its answers,
/// if the lines of the second part are numbered on. Its counts are the sums of both.
#[tactic(auto, using(crate::proofs::WritingLemmas::files_split_between_lines))]
pub fn files_split_between_lines()
    ensures { FilesSplitBetweenLines }
{}
