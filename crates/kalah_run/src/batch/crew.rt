//! How the workers of a batch are run, on as many threads as can be started.
ghost use Rattle.kalah_run.specs.Batch.AtWork.{HasRun, IsAtWork};

use crate::batch::gate::Gate;
use crate::batch::shared_work::SharedWork;
use crate::batch::worker::Worker;
use crate::limits::MOST_WORKERS;
use std::sync::Wait;
use std::thread;
use std::thread::Threads;

// Draws jobs, solves each and sends its outcome, until there is nothing left to draw.
fn work<R: Wait, G: Gate>(rt: &R, shared: &SharedWork<'_, G>, worker: &mut Worker)
    requires { IsAtWork G.knows shared.now worker.old }
    ensures { HasRun G.knows shared.now worker.old worker.new }
{
    while let Some(job) = shared.desk.draw(&mut worker.draw_pass) {
        shared.gate.before(job);
        let outcome = worker.solve(shared.jobs, job, shared.gate);
        shared.queue.put(rt, &mut worker.put_pass, outcome);
        shared.gate.after(job);
    }
}

/// The workers of a batch, before they run, and what they share.
#[derive(Drop)]
pub(crate) struct Crew<'a, 'b, G> {
    pub(crate) shared: &'a SharedWork<'b, G>,
    pub(crate) workers: Vec<Worker>,
}

impl<'a, 'b, G: Gate> Crew<'a, 'b, G> {
    ghost use Rattle.kalah_run.specs.Batch.AtWork.{AreAtWork, HasRun, HaveRun, IsAtWork};

    /// Runs each worker, one in this thread and the others in new ones, and returns the workers. A worker for which no thread can be
    /// started runs in this thread or another worker's, once that one is done.
    pub(crate) fn run<R: Threads + Wait + Sync>(self, rt: &R) -> Vec<Worker>
        requires { AreAtWork G.knows self.shared.now self.workers.items }
        ensures { HaveRun G.knows self.entry.shared.now self.entry.workers.items result.items }
    {
        let Crew {
            shared,
            mut workers,
        } = self;
        thread::for_each_mut(
            rt,
            workers.as_mut_slice(),
            MOST_WORKERS as usize,
            &|_, worker: &mut Worker|
                requires { IsAtWork G.knows shared.now worker.old }
                ensures { HasRun G.knows shared.entry.now worker.old worker.new }
            { work(rt, shared, worker) },
        );
        workers
    }
}
