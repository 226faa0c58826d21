//! A worker of a batch. No other module can use the solver of a worker.
ghost use Rattle.std.specs.Prelude.{◌≡◌, ◌<◌, Some, slice_get, true, IfOk};
ghost use Rattle.kalah_jobs.specs.Files.{JobList.{job_list}, Jobs.{job_count}};
ghost use Rattle.kalah_solve.specs.Table.Entries.{IsTableSize};
ghost use Rattle.crossbeam_utils.specs.Padded.{padded_value};
ghost use Rattle.kalah_solve.specs.Solver.EmptyTable.{HasEmptyTable};

use crate::batch::gate::Gate;
use crate::desk::pass::Pass;
use crate::queue::passes::PutPass;
use crossbeam_utils::CachePadded;
use kalah_jobs::{Jobs, Outcome};
use kalah_solve::{Solver, Table};
use std::alloc::{AllocError, Global};

/// One worker of a batch: the pass by which it draws, the pass by which it sends, and its solver.
#[derive(Drop)]
pub(crate) struct Worker {
    pub(crate) draw_pass: Pass,
    pub(crate) put_pass: PutPass,
    // Workers are adjacent in one list, and each thread changes its own solver all the time.
    solver: CachePadded<Solver>,
}

impl Worker {
    /// Makes the solver of a worker, with a table of its own. It shares what it learns of endings with that of the other worker, if there
    /// is one. Fails with `AllocError` only if memory was refused.
    pub(crate) fn new_solver(
        alloc: Global,
        table_entries: u32,
        other: Option<&Worker>,
    ) -> Result<Solver, AllocError>
        requires { IsTableSize table_entries }
        ensures { IfOk result (HasEmptyTable table_entries) }
    {
        match other {
            Some(worker) => worker.solver.sharing_endings(alloc, table_entries),
            None => Ok(Solver::new(Table::new(alloc, table_entries)?)),
        }
    }

    /// Makes a worker with these passes and this solver.
    pub(crate) fn new(draw_pass: Pass, put_pass: PutPass, solver: Solver) -> Worker
        ensures passes { (result.draw_pass ≡ draw_pass) × (result.put_pass ≡ put_pass) }
        ensures solver { padded_value result.solver ≡ solver }
    {
        Worker {
            draw_pass,
            put_pass,
            solver: CachePadded::new(solver),
        }
    }

    /// Solves a job, and returns its outcome. `_gate` is not used: its clause makes the caller call the gate first.
    #[inline(always)]
    pub(crate) fn solve<G: Gate>(&mut self, jobs: &Jobs, job: u32, _gate: &G) -> Outcome
        requires there { job < job_count jobs.now }
        requires known { G.knows _gate.now job ≡ true }
        ensures outcome { slice_get (job_list jobs.now) job ≡ Some result }
        ensures same { (self.new.draw_pass ≡ self.old.draw_pass) × (self.new.put_pass ≡ self.old.put_pass) }
    {
        Outcome::of_job(jobs, job, &mut self.solver)
    }
}
