//! The outcomes that the calling thread gets. Once a receiver has its passes no other module can use them, so what these calls require
//! holds at each wait for an outcome.
ghost use Rattle.std.specs.Prelude.{◌≡◌, ◌<◌, ◌≤◌, ◌+◌, ◌-◌, ◌↔◌, [], length, true, false, Some, None, IfNone};
ghost use Rattle.kalah_jobs.specs.Writing.Sink.{IsReady};
ghost use Rattle.kalah_run.specs.{Desk.States.{IsPassAt}, declared.limits.TheConstants.{MOST_TRIES}};

use crate::batch::request::OnFailedWrite;
use crate::batch::shared_work::SharedWork;
use crate::batch::watch::Watch;
use crate::desk::Desk;
use crate::desk::pass::Pass;
use crate::limits::MOST_TRIES;
use crate::queue::ResultsQueue;
use crate::queue::passes::GetPass;
use kalah_jobs::{Outcome, Sink};
use std::sync::Wait;

/// The passes of the calling thread: that by which it gets outcomes, and that by which it draws the rest if the rest is left.
#[derive(Drop)]
pub(crate) struct CallerPasses {
    pub(crate) get_pass: GetPass,
    pub(crate) rest_pass: Pass,
}

/// The passes of the calling thread, with their desk and queue, and how many outcomes are still to come.
#[derive(Drop)]
pub(crate) struct Receiver<'a> {
    desk: &'a Desk,
    queue: &'a ResultsQueue,
    on_failed_write: OnFailedWrite,
    passes: CallerPasses,
    // One for each job whose outcome was not got and that this thread has not drawn: a worker has drawn it, or will.
    to_come: u32,
    // The tries that are saved up.
    tries: u32,
    ghost draws: { IsPassAt desk.now passes.rest_pass },
    ghost gets: { passes.get_pass.queue ≡ queue.now.id },
    ghost counts: { to_come ≡ desk.now.total - (length passes.get_pass.got + length passes.rest_pass.row.numbers) },
    ghost few_tries: { tries ≤ MOST_TRIES },
}

impl<'a> Receiver<'a> {
    ghost use Rattle.kalah_run.specs.Batch.{Leaving.{HasDrawnNothing, IsAbandoned, NothingRemains}, Running.{Receives}};

    /// Makes a receiver with these passes. The outcome of each job is to come.
    pub(crate) fn new<G>(
        shared: &'a SharedWork<'_, G>,
        passes: CallerPasses,
        on_failed_write: OnFailedWrite,
    ) -> Receiver<'a>
        requires draws { IsPassAt shared.now.desk passes.rest_pass }
        requires undrawn { HasDrawnNothing passes.rest_pass }
        requires gets { passes.get_pass.queue ≡ shared.now.queue.id }
        requires ungot { passes.get_pass.got ≡ [] }
        ensures passes { result.passes ≡ passes }
        ensures desk { result.desk.now ≡ shared.now.desk }
        ensures on_failed_write { result.on_failed_write ≡ on_failed_write }
    {
        Receiver {
            desk: &shared.desk,
            queue: &shared.queue,
            on_failed_write,
            passes,
            to_come: shared.jobs.total(),
            tries: 0,
        }
    }

    /// Prepares to get the next outcome, and returns whether one is to come. If the output has failed and the rest is to be left, it first
    /// draws all jobs that are left, so that no worker can. From then on a worker sends at most one outcome more, that of the job under way.
    #[inline(always)]
    pub(crate) fn prepare_next(&mut self, has_failed: bool) -> bool
        ensures awaits { (result ≡ true) ↔ (0 < self.new.to_come) }
        ensures receives { Receives has_failed self.old None self.new }
        ensures left { IsAbandoned self.old.on_failed_write has_failed → NothingRemains self.new.passes.rest_pass }
    {
        if has_failed && self.on_failed_write == OnFailedWrite::Leave {
            let left = self.desk.draw_rest(&mut self.passes.rest_pass);
            self.to_come = self.to_come.saturating_sub(left);
        }
        self.to_come > 0
    }

    /// Gets an outcome that comes soon, as `ResultsQueue::get_soon`.
    #[inline(always)]
    pub(crate) fn get_soon(&mut self) -> Option<Outcome>
        requires to_come { 0 < self.old.to_come }
        ensures receives { Receives false self.old result self.new }
        ensures spent { IfNone result (self.new.tries ≡ 0) }
    {
        // One try more for each outcome, so that tries that find nothing take a small share of the time that the outcomes took.
        let mut tries = (self.tries + 1).min(MOST_TRIES);
        let outcome = self.queue.get_soon(&mut self.passes.get_pass, &mut tries);
        self.tries = tries;
        if outcome.is_some() {
            self.to_come -= 1;
        }
        outcome
    }

    /// Gets an outcome that may come late. `_watch` and `_out` are not used: their clauses make the caller call the watch and flush first.
    pub(crate) fn get<R: Wait, V: Watch, W: Sink>(
        &mut self,
        rt: &R,
        _watch: &V,
        _out: &W,
    ) -> Outcome
        requires to_come { 0 < self.old.to_come }
        requires known { V.is_waiting _watch.now ≡ true }
        // The sink has flushed all that was written, unless it may keep bytes in its buffer while its caller waits.
        requires ready { IsReady (W.state _out.now) }
        ensures { Receives false self.old (Some result) self.new }
    {
        self.to_come -= 1;
        self.queue.get(rt, &mut self.passes.get_pass)
    }

    /// Returns the passes, to close the queue and the desk.
    pub(crate) fn into_passes(self) -> CallerPasses
        ensures { result ≡ self.entry.passes }
    {
        self.passes
    }
}
