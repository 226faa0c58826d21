//! The answer that a worker found for a line of a file.
ghost use Rattle.std.specs.Prelude.{◌≡◌, ◌<◌, slice_get, Some};
ghost use Rattle.kalah_jobs.specs.{Files.{JobList.{job_list}, Jobs.{job_count}}, Writing.Answer.{answer_of}};

use crate::collecting::found::Found;
use crate::files::entry::Entry;
use crate::files::job::Job;
use crate::files::jobs::{JobRef, Jobs};
use crate::writing::answer::Answer;
use kalah_solve::Solver;
use std::fmt;
use std::fmt::Debug;
use std::marker::Model;

/// The answer to one line, with the file, the line and the line's entry. Its answer always belongs to
/// its entry. File and line may be any numbers; a collector refuses an outcome that is none of its jobs.
#[derive(Clone, Copy)]
pub struct Outcome {
    job: Job,
    found: Found,
}

impl Model for Outcome {
    ghost use Rattle.std.specs.Prelude.{◌≡◌};
    ghost use Rattle.kalah_jobs.specs.Collecting.{Found.{found_of}, OutcomeState.{OutcomeState, outcome_of, outcome_again}};

    ghost Value = { OutcomeState };

    ghost view = { λ o. o.job };

    ghost invariant = { λ o. o.found ≡ found_of o.job.entry };

    ghost inverse = { outcome_of };

    ghost inverse_ok = { outcome_again };
}

// Outcomes of equal jobs are equal, since what was found is determined by the entry.
impl PartialEq for Outcome {
    ghost use Rattle.kalah_jobs.specs.contracts.files.job.JobPartialEq.TheImpl as job;
    ghost use Rattle.kalah_jobs.specs.contracts.files.job.JobPartialEq.TheImpl.Laws as job_laws;

    ghost eq = { (job.ghosts).eq };

    ghost laws = { job_laws.laws-law };

    fn eq(&self, other: &Outcome) -> bool {
        self.job == other.job
    }
}

impl Eq for Outcome {
    ghost use Rattle.kalah_jobs.specs.contracts.files.job.JobEq.TheImpl.Laws.{laws-law};

    ghost laws = { laws-law };
}

// An outcome is shown as its job.
impl Debug for Outcome {
    fn fmt<W: fmt::Write>(&self, f: &mut fmt::Formatter<W>) -> fmt::Result {
        self.job.fmt(f)
    }
}

impl Outcome {
    /// Answers one line, and returns the outcome. The solver answers what is asked of a position. A line that was not read is answered
    /// by its fault. `file` and `line` may be any numbers.
    pub fn of(file: u32, line: u32, entry: Entry, solver: &mut Solver) -> Outcome
        ensures { result ≡ record { file = file; line = line; entry = entry } }
    {
        let found = Found::solve(&entry, solver);
        let job = Job { file, line, entry };
        Outcome { job, found }
    }

    /// Answers job `n`, which must be below `total`, and returns its outcome, as `of` does. The entry is copied once, after the search;
    /// a call of `of` would copy it before the search, too.
    #[inline(always)]
    pub fn of_job(jobs: &Jobs, n: u32, solver: &mut Solver) -> Outcome
        requires { n < job_count jobs.now }
        ensures { slice_get (job_list jobs.now) n ≡ Some result }
    {
        let JobRef { file, line, entry } = jobs.find(n);
        let found = Found::solve(entry, solver);
        let entry = *entry;
        let job = Job { file, line, entry };
        Outcome { job, found }
    }

    /// Returns the number of the file, from 0 on.
    pub fn file(&self) -> u32
        ensures { result ≡ self.now.file }
    {
        self.job.file
    }

    /// Returns the number of the line in its file, from 0 on.
    pub fn line(&self) -> u32
        ensures { result ≡ self.now.line }
    {
        self.job.line
    }

    /// Returns the entry of the line.
    pub fn entry(&self) -> Entry
        ensures { result ≡ self.now.entry }
    {
        self.job.entry
    }

    /// Returns the answer to the line.
    pub fn answer(&self) -> Answer
        ensures { result ≡ answer_of self.now.entry }
    {
        self.found.answer(&self.job.entry)
    }
}
