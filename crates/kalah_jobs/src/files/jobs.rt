//! The jobs of a batch: the lines of its files.
ghost use Rattle.std.specs.Prelude.{◌≡◌, ◌<◌, ◌≤◌, ◌+◌, length, count_by, IfOk, MatchBool, slice_get, Some};
ghost use Rattle.kalah_jobs.specs.{Files.{Entry.{is_faulty_entry}, JobList.{entries_of, is_faulty_job, line_job, job_list}, Jobs.{MakesJobs, entries_for, job_count, lines_in_all}}, Limits.{most_files, most_lines}, declared.files.question.Question.TheVariants.{BestMove}};

use crate::files::entry::Entry;
use crate::files::file_lines::{count_lines, first_line};
use crate::files::file_text::FileText;
use crate::files::job::Job;
use crate::files::question::Question;
use crate::limits::{MOST_FILES, MOST_LINES};
use std::alloc::{AllocError, Global};
use std::marker::Model;
use thiserror::Error;

/// Why files make no batch: the first of these that holds.
#[derive(Clone, Copy, Debug, PartialEq, Eq, Error)]
pub enum JobsFault {
    /// There are more than 256 files.
    #[error("too many files")]
    TooManyFiles,
    /// The files have more than 1,000,000 lines together.
    #[error("too many lines")]
    TooManyLines,
    /// Memory for the jobs was refused.
    #[error("out of memory")]
    OutOfMemory,
}

impl From<AllocError> for JobsFault {
    ghost use Rattle.kalah_jobs.specs.declared.files.jobs.JobsFault.TheVariants.{OutOfMemory};

    ghost from_gives = { λ _ fault. fault ≡ OutOfMemory };

    fn from(_: AllocError) -> JobsFault {
        JobsFault::OutOfMemory
    }
}

/// A job with a reference to its entry, which isn't copied.
pub(crate) struct JobRef<'a> {
    pub(crate) file: u32,
    pub(crate) line: u32,
    pub(crate) entry: &'a Entry,
}

// The jobs of a file.
#[derive(Drop)]
struct FileJobs {
    // The entries of its lines.
    entries: Vec<Entry>,
    // The number of its first job.
    start: u32,
}

/// The jobs of a batch: for each file, in order, the entries of its lines, in order. Files, lines and jobs count from 0, and jobs
/// are numbered file by file, and line by line in each. There are at most 256 files and 1,000,000 lines.
#[derive(Drop)]
pub struct Jobs {
    files: Vec<FileJobs>,
    // The number of jobs.
    total: u32,
    // How many of them are answered by a fault.
    faults: u32,
}

impl Model for Jobs {
    ghost use Rattle.kalah_jobs.specs.Files.{JobList.{JobsState}, Jobs.{AreCounted, AreStarts, entries_in, starts_in}};

    ghost Value = { JobsState };

    ghost view = { λ j. entries_in j.files.items };

    ghost invariant = { λ j. AreCounted (entries_in j.files.items) j.total j.faults
        × AreStarts (entries_in j.files.items) (starts_in j.files.items) };
}

impl Jobs {
    /// Makes the jobs of these files, with the best move asked of each position. Fails as `with_question` does.
    pub fn of_files(alloc: Global, files: &[FileText]) -> Result<Jobs, JobsFault>
        ensures { MakesJobs BestMove files.now result }
    {
        Jobs::with_question(alloc, Question::BestMove, files)
    }

    /// Makes the jobs of these files: each line of each file, with its entry and what is asked of its position.
    ///
    /// Fails with `TooManyFiles` if there are more than 256 files, otherwise with `TooManyLines` if they have more than 1,000,000 lines
    /// together. Both are tested before any allocation. Fails with `OutOfMemory` only if memory was refused.
    pub fn with_question(
        alloc: Global,
        question: Question,
        files: &[FileText],
    ) -> Result<Jobs, JobsFault>
        ensures { MakesJobs question files.now result }
    {
        if files.len() > MOST_FILES {
            return Err(JobsFault::TooManyFiles);
        }
        if !are_lines_within_limit(files) {
            return Err(JobsFault::TooManyLines);
        }
        let mut read = Vec::with_capacity(alloc, files.len())?;
        let mut before = 0;
        let mut faults = 0;
        for file in files {
            let (entries, faulty) = read_entries(alloc, question, file)?;
            let start = before as u32;
            before += entries.len();
            faults += faulty;
            read.push_reserved(FileJobs { entries, start });
        }
        Ok(Jobs {
            files: read,
            total: before as u32,
            faults: faults as u32,
        })
    }

    /// Returns the number of jobs, at most 1,000,000: the lines of all files.
    #[tactic(auto, using(crate::proofs::FilesLemmas::counts_of_jobs))]
    pub fn total(&self) -> u32
        ensures lines { result ≡ job_count self.now }
        ensures jobs { result ≡ length (job_list self.now) }
        ensures few { result ≤ most_lines }
    {
        self.total
    }

    /// Returns the number of files, at most 256.
    pub fn files(&self) -> u32
        ensures count { result ≡ length self.now }
        ensures few { result ≤ most_files }
    {
        self.files.len() as u32
    }

    /// Returns the number of lines of file `f`, at most 1,000,000. The file must be below `files`.
    #[tactic(auto, using(crate::proofs::FilesLemmas::counts_of_jobs))]
    pub fn lines(&self, f: u32) -> u32
        requires { f < length self.now }
        ensures count { result ≡ length (entries_of self.now f) }
        ensures few { result ≤ most_lines }
    {
        self.files[f as usize].entries.len() as u32
    }

    /// Returns the entry of a line of a file, in its place.
    #[tactic(auto, using(crate::proofs::FilesLemmas::counts_of_jobs))]
    pub(crate) fn entry(&self, f: u32, line: u32) -> &Entry
        requires file { f < length self.now }
        requires line { line < length (entries_of self.now f) }
        ensures { slice_get (entries_of self.now f) line ≡ Some result.now }
    {
        &self.files[f as usize].entries[line as usize]
    }

    /// Finds job `n`.
    #[inline(always)]
    pub(crate) fn find(&self, n: u32) -> JobRef<'_>
        requires { n < job_count self.now }
        ensures { slice_get (job_list self.now) n ≡ Some (line_job result.file result.line result.entry.now) }
    {
        // The job is in a file from `file` on that is before `past`.
        let mut file = 0;
        let mut past = self.files.len();
        while past - file > 1 {
            let middle = file + (past - file) / 2;
            if self.files[middle].start <= n {
                file = middle;
            } else {
                past = middle;
            }
        }
        let found = &self.files[file];
        let line = n - found.start;
        JobRef {
            file: file as u32,
            line,
            entry: &found.entries[line as usize],
        }
    }

    /// Returns job `n`, which must be below `total`.
    pub fn get(&self, n: u32) -> Job
        requires { n < job_count self.now }
        ensures { slice_get (job_list self.now) n ≡ Some (line_job result.file result.line result.entry) }
    {
        let JobRef { file, line, entry } = self.find(n);
        Job {
            file,
            line,
            entry: *entry,
        }
    }

    /// Returns the number of jobs that are answered by a fault, at most `total`.
    #[tactic(auto, using(crate::proofs::FilesLemmas::faults_by_file))]
    pub fn faults(&self) -> u32
        ensures { result ≡ count_by is_faulty_job (job_list self.now) }
    {
        self.faults
    }
}

// Returns whether the files have no more lines together than a batch may have.
fn are_lines_within_limit(files: &[FileText]) -> bool
    ensures { MatchBool result (lines_in_all files.now ≤ most_lines) (most_lines < lines_in_all files.now) }
{
    let mut room = MOST_LINES;
    for file in files {
        let lines = count_lines(&file.bytes);
        if lines > room {
            return false;
        }
        room -= lines;
    }
    true
}

// Returns the entries of the lines of a file, with this question, and how many of these lines are answered by a fault.
#[tactic(auto, using(crate::proofs::FileLinesLemmas::no_line), unfolding(crate::specs::Files::Jobs::entries_for))]
fn read_entries(
    alloc: Global,
    question: Question,
    file: &FileText,
) -> Result<(Vec<Entry>, usize), AllocError>
    ensures read { IfOk result (λ read. read.0.items ≡ entries_for question file.now.bytes) }
    ensures faults { IfOk result (λ read. read.1 ≡ count_by is_faulty_entry read.0.items) }
{
    let mut entries = Vec::with_capacity(alloc, file.lines())?;
    let mut faults = 0;
    let mut rest = file.bytes.as_slice();
    while !rest.is_empty() {
        let (line, after) = first_line(rest);
        let entry = Entry::of_line(question, line);
        if entry.is_faulty() {
            faults += 1;
        }
        entries.push_reserved(entry);
        rest = after;
    }
    Ok((entries, faults))
}

#[cfg(test)]
mod tests;
