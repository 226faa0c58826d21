//! The answers that have arrived for one file.
ghost use Rattle.std.specs.Prelude.{◌≡◌, ◌+◌, ◌<◌, ◌≤◌, ◌↔◌, ◌==◌, IfOk, IsTrue, IsSome, MatchOption, MatchBool, None, length};
ghost use Rattle.kalah_jobs.specs.{Collecting.CollectorState.{new_file, line_count, front, front_of, arrived_for, with_answer, HasEnded, with_one_taken, IsNext, HasNoNext}, Limits.{most_lines}};

use crate::writing::answer::{Answer, Taken};
use std::alloc::{AllocError, Global};
use std::marker::Model;

/// The answers that have arrived for the lines of a file.
#[derive(Drop)]
pub(crate) struct Arrivals {
    arrived: Vec<Option<Answer>>,
    // How many lines, from the first on, have arrived without a gap: those that are ready or taken.
    front: u32,
    taken: u32,
}

impl Model for Arrivals {
    ghost use Rattle.std.specs.Prelude.{◌≡◌, ◌≤◌, length};
    ghost use Rattle.kalah_jobs.specs.{Collecting.CollectorState.{ArrivalsState, front_of}, Limits.{most_lines}};

    ghost Value = { ArrivalsState };

    ghost view = { λ a. record { arrived = a.arrived.items; taken = a.taken } };

    ghost invariant = { λ a. (a.front ≡ front_of a.arrived.items) × (a.taken ≤ a.front) × (length a.arrived.items ≤ most_lines) };
}

impl Arrivals {
    /// Makes the state of a file of `lines` lines with no answer yet.
    #[tactic(auto, using(crate::proofs::CollectingLemmas::front_none))]
    pub(crate) fn new(alloc: Global, lines: u32) -> Result<Arrivals, AllocError>
        requires { lines ≤ most_lines }
        ensures { IfOk result (λ a. a ≡ new_file lines) }
    {
        let arrived = vec![in alloc; None; lines as usize]?;
        Ok(Arrivals {
            arrived,
            front: 0,
            taken: 0,
        })
    }

    /// Returns whether every line is ready or taken.
    pub(crate) fn ended(&self) -> bool
        ensures { IsTrue result ↔ HasEnded self.now }
    {
        self.front as usize == self.arrived.len()
    }

    /// Returns whether every line was taken.
    pub(crate) fn all_taken(&self) -> bool
        ensures { result ≡ (self.now.taken == line_count self.now) }
    {
        self.taken as usize == self.arrived.len()
    }

    /// Returns whether the answer of a line has arrived, or `None` if there is no line of this number.
    pub(crate) fn has_arrived(&self, line: u32) -> Option<bool>
        ensures { MatchOption result (line_count self.now ≤ line) (λ arrived. (line < line_count self.now)
            × MatchBool arrived (IsSome (arrived_for self.now line)) (arrived_for self.now line ≡ None)) }
    {
        Some(self.arrived.get(line as usize)?.is_some())
    }

    /// Keeps the answer of a line, and returns how many lines became ready.
    pub(crate) fn accept(&mut self, line: u32, answer: Answer) -> u32
        requires within { line < line_count self.old }
        requires first { arrived_for self.old line ≡ None }
        ensures kept { self.new ≡ with_answer self.old line answer }
        ensures more_ready { front self.new ≡ front self.old + result }
    {
        self.arrived[line as usize] = Some(answer);
        let before = self.front;
        while (self.front as usize) < self.arrived.len()
            && self.arrived[self.front as usize].is_some()
        {
            self.front += 1;
        }
        self.front - before
    }

    /// Takes the next line that is ready. Returns `None`, with nothing changed, if there is none.
    #[tactic(auto, using(crate::proofs::CollectingLemmas::fronts))]
    pub(crate) fn take(&mut self) -> Option<Taken>
        ensures { MatchOption result (HasNoNext self.old × (self.new ≡ self.old))
            (λ taken. IsNext self.old taken × (self.new ≡ with_one_taken self.old)) }
    {
        if self.taken == self.front {
            return None;
        }
        let line = self.taken;
        let answer = self.arrived[line as usize].unwrap();
        self.taken += 1;
        Some(Taken { line, answer })
    }
}
