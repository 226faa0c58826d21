//! A batch that is opened, run and closed.
ghost use Rattle.std.specs.Prelude.{◌≡◌, ◌≤◌, ◌⊎◌, ℕ, ◌<◌, [], ◌∷◌, ◌++◌, length, vec_len, vec_capacity, false, true, IfOk, IfErr};
ghost use Rattle.kalah_jobs.specs.{Files.Jobs.{job_count}, Writing.Sink.{WasGiven}};
ghost use Rattle.kalah_run.specs.{Limits.{IsTableSize}, Batch.{AtWork.{passes_of, puts_of}, Running.{IsAsAsked, IsReadyToRun, HasRoom, HaveOwnTables}, OrderedOutput.{whole_output}}, declared.batch.request.OnFailedWrite.TheVariants.{Solve}};

use crate::batch::collecting::collect_from_crew;
use crate::batch::crew::Crew;
use crate::batch::gate::Gate;
use crate::batch::ordered_output::OrderedOutput;
use crate::batch::receiver::{CallerPasses, Receiver};
use crate::batch::request::{BatchRequest, OnFailedWrite};
use crate::batch::run_fault::RunFault;
use crate::batch::shared_work::SharedWork;
use crate::batch::watch::Watch;
use crate::batch::worker::Worker;
use crate::desk::Desk;
use crate::desk::pass::Pass;
use crate::limits::QUEUE_CAPACITY;
use crate::queue::ResultsQueue;
use crate::queue::passes::PutPass;
use kalah_jobs::{Jobs, Sink};
use std::alloc::{AllocError, Global};
use std::sync::Wait;
use std::thread::Threads;

/// The lists in which the desk and the queue hand out the passes of the workers. While the workers have the passes, the lists are empty
/// and keep their room, so all passes can return without a request for memory.
#[derive(Drop)]
struct PassLists {
    draw_passes: Vec<Pass>,
    put_passes: Vec<PutPass>,
}

impl PassLists {
    // Makes a worker for each pair of passes, in their order, and leaves the lists empty. All workers share what they learn of endings.
    fn make_workers(&mut self, alloc: Global, table_entries: u32) -> Result<Vec<Worker>, AllocError>
        requires as_many { vec_len self.old.draw_passes ≡ vec_len self.old.put_passes }
        requires table { IsTableSize table_entries }
        ensures passes { IfOk result (λ workers. passes_of workers.items ≡ self.old.draw_passes.items) }
        ensures puts { IfOk result (λ workers. puts_of workers.items ≡ self.old.put_passes.items) }
        ensures tables { IfOk result (λ workers. HaveOwnTables table_entries workers.items) }
        ensures empty { IfOk result (λ _. (self.new.draw_passes.items ≡ []) × (self.new.put_passes.items ≡ [])) }
        ensures room { (vec_capacity self.new.draw_passes ≡ vec_capacity self.old.draw_passes)
            × (vec_capacity self.new.put_passes ≡ vec_capacity self.old.put_passes) }
    {
        let mut workers: Vec<Worker> = Vec::with_capacity(alloc, self.draw_passes.len())?;
        for _ in 0..self.draw_passes.len() {
            let solver = Worker::new_solver(alloc, table_entries, workers.last())?;
            let draw_pass = self.draw_passes.pop().unwrap();
            let put_pass = self.put_passes.pop().unwrap();
            workers.push_reserved(Worker::new(draw_pass, put_pass, solver));
        }
        workers.reverse();
        Ok(workers)
    }

    // Takes the passes of the workers back, in their order, and then that of the calling thread.
    fn take_back(&mut self, workers: Vec<Worker>, rest_pass: Pass)
        requires { HasRoom (vec_len workers) self.old }
        ensures passes { self.new.draw_passes.items ≡ passes_of workers.items ++ rest_pass ∷ [] }
        ensures puts { self.new.put_passes.items ≡ puts_of workers.items }
    {
        for worker in workers {
            self.draw_passes.push_reserved(worker.draw_pass);
            self.put_passes.push_reserved(worker.put_pass);
        }
        self.draw_passes.push_reserved(rest_pass);
    }
}

/// A batch that is open: what its workers share, the workers, the passes of the calling thread, and what is written of it.
#[derive(Drop)]
pub(crate) struct OpenBatch<'a, G> {
    shared: SharedWork<'a, G>,
    workers: Vec<Worker>,
    caller: CallerPasses,
    on_failed_write: OnFailedWrite,
    output: OrderedOutput<'a>,
    lists: PassLists,
}

impl<'a, G: Gate> OpenBatch<'a, G> {
    /// Opens a batch of these jobs, with the workers asked for, but at most one for each job, and one if there is no job. All memory that
    /// it can't do without is allocated here. Fails with `AllocError` only if memory was refused.
    pub(crate) fn open(
        alloc: Global,
        request: &BatchRequest<'a>,
        jobs: &'a Jobs,
        gate: &'a G,
    ) -> Result<OpenBatch<'a, G>, AllocError>
        requires { length jobs.now ≡ length request.now.files.now }
        ensures asked { IfOk result (IsAsAsked request.now jobs.now gate.now) }
        ensures ready { IfOk result (IsReadyToRun G.knows) }
    {
        let output = OrderedOutput::new(alloc, request.files, jobs)?;
        let total = jobs.total();
        let count = request.workers.min(total).max(1);
        let (desk, mut passes) = Desk::open(alloc, total, count + 1)?;
        let (queue, puts, get_pass) = ResultsQueue::open(alloc, QUEUE_CAPACITY, count)?;
        let shared = SharedWork {
            desk,
            queue,
            jobs,
            gate,
        };
        let rest_pass = passes.pop().unwrap();
        let caller = CallerPasses {
            get_pass,
            rest_pass,
        };
        let mut lists = PassLists {
            draw_passes: passes,
            put_passes: puts,
        };
        let workers = lists.make_workers(alloc, request.table)?;
        Ok(OpenBatch {
            shared,
            workers,
            caller,
            on_failed_write: request.on_failed_write,
            output,
            lists,
        })
    }

    /// Runs the workers, and writes each answer line once it is ready and all earlier ones are written. Then it closes the batch. Fails
    /// with `NoWorker` if no thread could be started; then nothing is written.
    pub(crate) fn run<R: Threads + Wait + Sync, V: Watch, W: Sink>(
        self,
        rt: &R,
        watch: &mut V,
        out: &mut W,
    ) -> Result<(), RunFault>
        requires { IsReadyToRun G.knows self }
        ensures given { IfOk result (λ _. WasGiven W.state out.old out.new (whole_output self.entry.output)) }
        ensures fault { IfErr result (λ e. (e ≡ RunFault.NoWorker) × (out.new ≡ out.old)) }
        ensures gate_hears_all { (self.entry.on_failed_write ≡ Solve) ⊎ ((W.state out.new).has_failed ≡ false)
            → IfOk result (λ _. (job : ℕ) → job < job_count self.entry.shared.jobs.now → G.knows self.entry.shared.gate.now job ≡ true) }
    {
        let OpenBatch {
            shared,
            workers,
            caller,
            on_failed_write,
            output,
            mut lists,
        } = self;
        let crew = Crew {
            shared: &shared,
            workers,
        };
        let receiver = Receiver::new(&shared, caller, on_failed_write);
        let Some((workers, caller)) = collect_from_crew(rt, crew, receiver, output, watch, out)
        else {
            return Err(RunFault::NoWorker);
        };
        // Closing has no effect that a caller sees: here the desk proves that each number was drawn once, and the queue that each outcome
        // sent was got once. New lists of passes could be refused memory, now that the answers are written.
        lists.take_back(workers, caller.rest_pass);
        shared.desk.close(lists.draw_passes);
        shared.queue.close(rt, lists.put_passes, caller.get_pass);
        Ok(())
    }
}
