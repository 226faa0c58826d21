//! The collector: outcomes come in any order, and the answers of each file are returned in the order of its lines.
ghost use Rattle.std.specs.Prelude.{◌≡◌, ◌<◌, ◌↔◌, IfOk, IsTrue, MatchOption, All, length, map};
ghost use Rattle.kalah_jobs.specs.Collecting.{CollectorState.{state_of, line_count, HasEnded, new_files, HasLinesOf}, Refusals.{IsWanted, IsRefusedFor}, CollectorEvents.{Offers, Takes}};

use crate::collecting::arrivals::Arrivals;
use crate::collecting::outcome::Outcome;
use crate::collecting::refusal::Refusal;
use crate::files::entry::is_same_entry;
use crate::files::jobs::Jobs;
use crate::writing::answer::Taken;
use std::alloc::{AllocError, Global};
use std::marker::Model;

#[cfg(test)]
mod tests;

/// Accepts outcomes in any order, and returns the answers of each file in the order of its lines.
#[derive(Drop)]
pub struct Collector {
    files: Vec<Arrivals>,
}

impl Model for Collector {
    ghost use Rattle.std.specs.Prelude.{List};
    ghost use Rattle.kalah_jobs.specs.Collecting.CollectorState.{ArrivalsState};

    ghost Value = { List ArrivalsState };

    ghost view = { λ c. c.files.items };
}

impl Collector {
    /// Makes a collector for these jobs, to which nothing has come. It allocates all its memory here.
    ///
    /// Fails with `AllocError` only if memory was refused.
    #[tactic(auto, using(crate::proofs::CollectingLemmas::new_counts))]
    pub fn new(alloc: Global, jobs: &Jobs) -> Result<Collector, AllocError>
        ensures empty { IfOk result (λ c. c ≡ new_files jobs.now) }
        ensures counts { IfOk result (λ c. HasLinesOf jobs.now c) }
    {
        let count = jobs.files();
        let mut files = Vec::with_capacity(alloc, count as usize)?;
        for f in 0..count {
            files.push_reserved(Arrivals::new(alloc, jobs.lines(f))?);
        }
        Ok(Collector { files })
    }

    /// Accepts an outcome, and returns how many lines of its file became ready by it. A line is ready once it and all lines
    /// before it have been accepted. The jobs are those that the collector was made for, or others with as many lines in each file.
    ///
    /// Fails with the first `Refusal` that holds, and then changes nothing: `NoSuchFile`, `FileEnded`, `NoSuchLine`, `WrongPosition`,
    /// `Double`.
    #[tactic(auto, using(crate::proofs::CollectingLemmas::counts))]
    pub fn offer(&mut self, jobs: &Jobs, outcome: Outcome) -> Result<u32, Refusal>
        requires { HasLinesOf jobs.now self.old }
        ensures offers { Offers jobs.now self.old outcome result self.new }
        ensures counts { HasLinesOf jobs.now self.new }
    {
        match self.refusal(jobs, &outcome) {
            Some(refusal) => Err(refusal),
            None => {
                let file = &mut self.files[outcome.file() as usize];
                Ok(file.accept(outcome.line(), outcome.answer()))
            }
        }
    }

    // Returns the first refusal of an outcome that holds, or `None` if it is wanted.
    fn refusal(&self, jobs: &Jobs, outcome: &Outcome) -> Option<Refusal>
        requires { HasLinesOf jobs.now self.now }
        ensures { MatchOption result (IsWanted jobs.now self.now outcome.now)
            (λ refusal. IsRefusedFor jobs.now self.now outcome.now refusal) }
    {
        let (f, line) = (outcome.file(), outcome.line());
        if f as usize >= self.files.len() {
            return Some(Refusal::NoSuchFile);
        }
        let file = &self.files[f as usize];
        if file.ended() {
            return Some(Refusal::FileEnded);
        }
        let Some(has_arrived) = file.has_arrived(line) else {
            return Some(Refusal::NoSuchLine);
        };
        if !is_same_entry(jobs.entry(f, line), &outcome.entry()) {
            return Some(Refusal::WrongPosition);
        }
        if has_arrived {
            return Some(Refusal::Double);
        }
        None
    }

    /// Takes the first line of a file that is ready and was not taken, with its answer. Returns `None`, with nothing changed, if there
    /// is no such line or no such file.
    #[tactic(auto, using(crate::proofs::CollectingLemmas::counts))]
    pub fn take(&mut self, f: u32) -> Option<Taken>
        ensures takes { Takes self.old f result self.new }
        ensures counts { map line_count self.new ≡ map line_count self.old }
    {
        if f as usize >= self.files.len() {
            return None;
        }
        self.files[f as usize].take()
    }

    /// Returns whether every line of a file is ready or taken; false if there is no such file.
    pub fn ended(&self, f: u32) -> bool
        ensures { IsTrue result ↔ ((f < length self.now) × HasEnded (state_of self.now f)) }
    {
        (f as usize) < self.files.len() && self.files[f as usize].ended()
    }

    /// Returns whether every line of every file was taken.
    pub fn all_taken(&self) -> bool
        ensures { IsTrue result ↔ All (λ s. s.taken ≡ line_count s) self.now }
    {
        self.files.iter().all(|file| file.all_taken())
    }
}
