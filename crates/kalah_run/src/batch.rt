//! A batch: the lines of position files, solved by many workers and answered in order.
ghost use Rattle.std.specs.Prelude.{◌≡◌, ◌<◌, ◌⊎◌, [], false, true, IfErr, IfOk, OnOk};
ghost use Rattle.kalah_run.specs.{Limits.{IsWorkerCount, IsTableSize}, Batch.Answering.{AnswersBatch, HearsAll, tally_of_jobs}, declared.batch.request.OnFailedWrite.TheVariants.{Solve}};
ghost use Rattle.kalah_jobs.specs.Writing.{Sink.{WasGiven}, Output.{output_of, output_for}};

mod collecting;
mod crew;
pub(crate) mod gate;
mod open_batch;
mod ordered_output;
mod receiver;
pub(crate) mod request;
pub(crate) mod run_fault;
mod shared_work;
#[cfg(test)]
mod tests;
pub(crate) mod watch;
mod worker;

use crate::batch::gate::Gate;
use crate::batch::open_batch::OpenBatch;
use crate::batch::request::{BatchRequest, OnFailedWrite};
use crate::batch::run_fault::RunFault;
use crate::batch::watch::{NoWatch, Watch};
use kalah_jobs::{FileText, Jobs, Question, Sink, Tally, flush_unless_failed};
use std::alloc::Global;
use std::sync::Wait;
use std::thread::Threads;

/// Answers what is asked of every line of the files. It writes the answer to each, in the order of files and lines, once it is ready
/// and all earlier ones are written. Then it flushes the output. If there is no line, no worker is started.
///
/// If it succeeds, exactly these answers were written, and the tally that it returns counts the lines. The gate was called for each job,
/// and the watch for each outcome.
///
/// Fails with the first of these that holds:
/// - `TooManyFiles` if there are more than 256 files;
/// - `TooManyLines` if they have more than 1,000,000 lines together;
/// - `OutOfMemory` if memory was refused before the first worker began;
/// - `NoWorker` if there is a line and no thread could be started;
/// - `Write` if a write or the flush failed. From then on nothing more is written, and `request.on_failed_write` says what happens to the
///   lines that are left.
///
/// The first four write nothing. After `Write`, what was written is a prefix of the answers.
pub fn answer_batch<R: Threads + Wait + Sync, G: Gate, V: Watch, W: Sink>(
    rt: &R,
    alloc: Global,
    request: &BatchRequest<'_>,
    gate: &G,
    watch: &mut V,
    out: &mut W,
) -> Result<Tally, RunFault>
    requires not_failed { (W.state out.old).has_failed ≡ false }

    // What Ok means, what was written in any case, and when each fault comes: a case for each result.
    ensures answers { AnswersBatch W.state (output_for request.now.question request.now.files.now)
        request.now.files.now out.old out.new result }

    // The gate hears of each job, unless the rest is left.
    ensures gate_hears_all { (request.now.on_failed_write ≡ Solve) ⊎ ((W.state out.new).has_failed ≡ false)
        → HearsAll (G.knows gate.now) request.now.files.now result }
{
    let jobs = Jobs::with_question(alloc, request.question, request.files)?;
    if jobs.total() > 0 {
        OpenBatch::open(alloc, request, &jobs, gate)?.run(rt, watch, out)?;
    }
    flush_and_count(&jobs, out)
}

// Flushes the output, and counts the lines of the jobs. Fails with `Write` if the output has failed.
fn flush_and_count<W: Sink>(jobs: &Jobs, out: &mut W) -> Result<Tally, RunFault>
    ensures given { WasGiven W.state out.old out.new [] }
    ensures counted { IfOk result (λ tally. tally ≡ tally_of_jobs jobs.now) }
    ensures all_flushed { OnOk result (((W.state out.new).has_failed ≡ false) × ((W.state out.new).is_flushed ≡ true)) }
    ensures fault { IfErr result (λ e. (e ≡ RunFault.Write) × ((W.state out.new).has_failed ≡ true)) }
{
    flush_unless_failed(out);
    if out.failed() {
        return Err(RunFault::Write);
    }
    Ok(Tally {
        lines: jobs.total(),
        faults: jobs.faults(),
    })
}

/// Solves every line of the files: `answer_batch` with the best move asked and `OnFailedWrite::Solve`, by `workers` workers, 1 to 64.
/// Each has a table of `table` entries, 1 to 1,048,576. The gate hears of each job, also after a failed write. Returns and fails as
/// `answer_batch`.
pub fn solve_batch<R: Threads + Wait + Sync, G: Gate, W: Sink>(
    rt: &R,
    alloc: Global,
    files: &[FileText],
    workers: u32,
    table: u32,
    gate: &G,
    out: &mut W,
) -> Result<Tally, RunFault>
    requires workers { IsWorkerCount workers }
    requires table { IsTableSize table }
    requires not_failed { (W.state out.old).has_failed ≡ false }

    // As in `answer_batch`.
    ensures answers { AnswersBatch W.state (output_of files.now) files.now out.old out.new result }
    ensures gate_hears_all { HearsAll (G.knows gate.now) files.now result }
{
    let request = BatchRequest {
        question: Question::BestMove,
        files,
        workers,
        table,
        on_failed_write: OnFailedWrite::Solve,
    };
    answer_batch(rt, alloc, &request, gate, &mut NoWatch, out)
}
