//! What is asked of a batch: the question about its files, how it is run, and what happens to the rest if a write fails.
ghost use Rattle.kalah_run.specs.Limits.{IsWorkerCount, IsTableSize};

use kalah_jobs::{FileText, Question};

/// What is asked of every line of some files, and how it is answered.
#[derive(Clone, Copy)]
pub struct BatchRequest<'a> {
    /// What is asked of every line.
    pub question: Question,
    /// The files, in the order of their answers.
    pub files: &'a [FileText],
    /// The number of workers, 1 to 64.
    pub workers: u32,
    /// The number of entries of each worker's table, 1 to 1,048,576.
    pub table: u32,
    /// What happens to the lines that are left if a write fails.
    pub on_failed_write: OnFailedWrite,
    ghost few_workers: { IsWorkerCount workers },
    ghost table_size: { IsTableSize table },
}

/// What happens to the jobs that are left when the output has failed.
#[derive(Clone, Copy, Debug, PartialEq, Eq)]
pub enum OnFailedWrite {
    /// They are solved, and the gate is called for each.
    Solve,
    /// They are left. A worker sends at most one outcome more, that of the job under way.
    Leave,
}
