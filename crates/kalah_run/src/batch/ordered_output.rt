//! The answers of a batch, written in the order of its lines.
ghost use Rattle.std.specs.Prelude.{◌≡◌, ℕ, List, length, IfOk};
ghost use Rattle.kalah_jobs.specs.{Writing.Sink.{WasGiven}, Collecting.CollectorState.{HasLinesOf}};

use kalah_jobs::{Collector, FileText, Jobs, Outcome, Sink, write_answer_unless_failed};
use std::alloc::{AllocError, Global};

/// What has come for a batch, and how much of it is written. `current` is the file whose lines are written next: the
/// files before it are completely written.
#[derive(Drop)]
pub(crate) struct OrderedOutput<'a> {
    files: &'a [FileText],
    jobs: &'a Jobs,
    collector: Collector,
    current: u32,
    ghost as_many: { length jobs.now ≡ length files.now },
    ghost counts: { HasLinesOf jobs.now collector },
}

impl<'a> OrderedOutput<'a> {
    ghost use Rattle.kalah_run.specs.Batch.OrderedOutput.{IsNew, HasBeenOffered, AwaitsLine, WritesOn};

    /// Makes the output of these files, with no outcome yet. It allocates all its memory here.
    pub(crate) fn new(
        alloc: Global,
        files: &'a [FileText],
        jobs: &'a Jobs,
    ) -> Result<OrderedOutput<'a>, AllocError>
        requires { length jobs.now ≡ length files.now }
        ensures of { IfOk result (λ r. (r.files.now ≡ files.now) × (r.jobs.now ≡ jobs.now)) }
        ensures new { IfOk result IsNew }
    {
        let collector = Collector::new(alloc, jobs)?;
        Ok(OrderedOutput {
            files,
            jobs,
            collector,
            current: 0,
        })
    }

    /// Offers the outcome of a job to the collector. One that is refused changes nothing; if each job is offered once, none is.
    #[inline(always)]
    pub(crate) fn offer(&mut self, outcome: Outcome)
        ensures { HasBeenOffered self.old outcome self.new }
    {
        let _ = self.collector.offer(self.jobs, outcome);
    }

    /// Writes the next lines in output order, as far as they are ready.
    #[inline(always)]
    pub(crate) fn write_ready<W: Sink>(&mut self, out: &mut W)
        ensures given { (text : List ℕ) × WasGiven W.state out.old out.new text }
        ensures writes { WritesOn W.state self.old out.old self.new out.new }
        ensures waits { AwaitsLine self.new }
    {
        while self.current < self.jobs.files() {
            let f = self.current;
            if let Some(taken) = self.collector.take(f) {
                let files = self.files;
                let file = &files[f as usize];
                write_answer_unless_failed(out, file.name.as_str(), &taken);
            } else if self.collector.ended(f) {
                self.current += 1;
            } else {
                return;
            }
        }
    }
}
