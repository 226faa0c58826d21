//! Laws over all files.
ghost use Rattle.kalah_jobs.specs.Files.{Lines.{LinesAreOne}, Entry.{EntriesAreOne}};

/// Every file has lines, for any bytes, and only one list of them.
#[tactic(auto, using(crate::proofs::FileLinesLemmas::lines_are_one))]
pub fn lines_are_one()
    ensures { LinesAreOne }
{}

/// Every line has one entry: it is read as one position, or has a first fault, but not both.
#[tactic(auto, using(crate::proofs::FilesLemmas::entries_are_one))]
pub fn entries_are_one()
    ensures { EntriesAreOne }
{}
