//! Batches whose writer fails.
ghost use Rattle.kalah_run.specs.Limits.{IsWorkerCount};

use super::gate::{ROOM, wait_for_begun};
use super::{
    ANSWERS, Counting, SEVEN_LINES, answer_into, four_files, request_of, same_lines, solve_into,
};
use crate::limits::QUEUE_CAPACITY;
use crate::{NoWatch, OnFailedWrite, RunFault, Tally};
use kalah_jobs::{FileText, Question};
use std::alloc::Global;
use std::io;
use std::io::{ErrorKind, Write};
use std::process::Abort;
use std::sync::Wait;
use std::sync::atomic::Ordering::SeqCst;
use std::thread::Threads;

/// Counts its calls, and returns an error at each after the first `most`.
#[derive(Drop)]
struct Failing {
    bytes: Vec<u8>,
    calls: u32,
    most: u32,
}

impl Write for Failing {
    fn write(&mut self, buf: &[u8]) -> io::Result<usize> {
        self.flush()?;
        self.bytes.write(buf)
    }

    fn flush(&mut self) -> io::Result<()> {
        self.calls = self.calls.saturating_add(1);
        if self.calls > self.most {
            return Err(io::Error::from(ErrorKind::BrokenPipe));
        }
        Ok(())
    }
}

impl Failing {
    fn after(alloc: Global, most: u32) -> Failing {
        Failing {
            bytes: Vec::new(alloc),
            calls: 0,
            most,
        }
    }
}

/// The result of a batch with a writer that fails, and what its gate and its writer saw.
#[derive(Drop)]
struct Run {
    // The result, how often the writer was called, and how many outcomes were sent.
    came: (Result<Tally, RunFault>, u32, u32),
    begun: u32,
    written: Vec<u8>,
}

impl Run {
    fn of((tally, writer): (Result<Tally, RunFault>, Failing), gate: &Counting) -> Run {
        Run {
            came: (tally, writer.calls, gate.sent.load(SeqCst)),
            begun: gate.begun.load(SeqCst),
            written: writer.bytes,
        }
    }
}

fn run_with<R: AllocGlobal + Threads + Wait + Sync>(
    rt: &R,
    question: Question,
    files: &[FileText],
    on_failed_write: OnFailedWrite,
    most: u32,
) -> Run {
    let gate = Counting::new();
    let failing = Failing::after(rt.alloc(), most);
    let request = request_of(question, files, 2, on_failed_write);
    let ended = answer_into(rt, &request, &gate, &mut NoWatch, failing);
    Run::of(ended, &gate)
}

// What `solve_batch` does with such a writer.
fn solve_with<R: AllocGlobal + Threads + Wait + Sync>(
    rt: &R,
    files: &[FileText],
    workers: u32,
    most: u32,
) -> Run
    requires { IsWorkerCount workers }
{
    let gate = Counting::new();
    let failing = Failing::after(rt.alloc(), most);
    Run::of(solve_into(rt, files, workers, 16, &gate, failing), &gate)
}

// Of the seven lines each is solved, and the writer is called once more than it succeeds, unless it succeeds with all and their flush. The
// case is the question, if one was given, and the workers.
fn assert_ends_alone<R: Abort>(rt: &R, run: &Run, case: (Option<Question>, u32), most: u32) {
    let wanted = if most < 8 {
        (Err(RunFault::Write), most.saturating_add(1), 7)
    } else {
        (Ok(SEVEN_LINES), 8, 7)
    };
    assert!(rt; run.came == wanted, "{case:?} {most}: {:?}", run.came);
}

// The writer failed at its last call and had taken this text, and `sent` outcomes were sent.
fn assert_failed<R: Abort>(rt: &R, run: &Run, calls: u32, text: &str, sent: u32) {
    let wanted = (Err(RunFault::Write), calls, sent);
    assert!(rt; run.came == wanted, "{wanted:?}: {:?}", run.came);
    let written = run.written.as_slice();
    assert!(rt; written == text.as_bytes(), "{wanted:?}: {written:?}");
}

// There is a call for each line, and one to flush them. One that fails ends the writing and nothing else.
#[test]
fn every_failing_call_ends_the_writing_and_nothing_else(rt: HostRuntime) {
    let files = four_files(rt.alloc()).expect(&rt, "no memory");
    for question in [Question::BestMove, Question::Values, Question::Steps] {
        for most in 0..9u32 {
            let run = run_with(&rt, question, files.as_slice(), OnFailedWrite::Solve, most);
            assert_ends_alone(&rt, &run, (Some(question), 2), most);
        }
    }
    for most in 0..9u32 {
        for workers in [1, 2, 64] {
            let run = solve_with(&rt, files.as_slice(), workers, most);
            assert_ends_alone(&rt, &run, (None, workers), most);
        }
    }
}

#[test]
fn a_flush_that_fails_is_a_failed_write(rt: HostRuntime) {
    let files = four_files(rt.alloc()).expect(&rt, "no memory");
    for (files, text, lines) in [(files.as_slice(), ANSWERS, 7), (&[], "", 0)] {
        let run = run_with(&rt, Question::BestMove, files, OnFailedWrite::Solve, lines);
        assert_failed(&rt, &run, lines + 1, text, lines);
    }
}

// The lines are more than the workers can send before the line that fails is written.
#[test]
fn all_jobs_are_done_though_the_writer_takes_one_line(rt: HostRuntime) {
    for lines in [200, ROOM + 200] {
        let files = same_lines(&rt, lines);
        let asked = run_with(&rt, Question::BestMove, &files, OnFailedWrite::Solve, 1);
        assert_failed(&rt, &asked, 2, "n:1 0 house 1\n", lines);
        let solved = solve_with(&rt, &files, 64, 1);
        assert_failed(&rt, &solved, 2, "n:1 0 house 1\n", lines);
    }
}

// The most jobs that two workers begin if only one outcome is got before they are to stop: its own, those in the queue, and for each
// worker the one under way.
const MOST_BEGUN: u32 = 1 + QUEUE_CAPACITY + 2;

#[test]
fn no_job_begins_once_the_rest_is_left(rt: HostRuntime) {
    let files = same_lines(&rt, 3000);
    let run = run_with(&rt, Question::BestMove, &files, OnFailedWrite::Leave, 0);
    assert!(rt; run.begun <= MOST_BEGUN, "{}", run.begun);
    assert_failed(&rt, &run, 1, "", run.begun);
}

/// Fails at its first call, once each of `workers` workers has an outcome without room.
#[derive(Drop)]
struct FailingFull<'a> {
    gate: &'a Counting,
    workers: u32,
}

impl Write for FailingFull<'_> {
    fn write(&mut self, _buf: &[u8]) -> io::Result<usize> {
        wait_for_begun(self.gate, ROOM.saturating_add(self.workers));
        Err(io::Error::from(ErrorKind::BrokenPipe))
    }

    fn flush(&mut self) -> io::Result<()> {
        Ok(())
    }
}

// The result of a batch with such a writer that leaves the rest, and how many jobs began and outcomes were sent.
fn run_full<R: AllocGlobal + Threads + Wait + Sync>(
    rt: &R,
    files: &[FileText],
    workers: u32,
) -> (Result<Tally, RunFault>, u32, u32)
    requires { IsWorkerCount workers }
{
    let gate = Counting::new();
    let failing = FailingFull {
        gate: &gate,
        workers,
    };
    let request = request_of(Question::BestMove, files, workers, OnFailedWrite::Leave);
    let (tally, _) = answer_into(rt, &request, &gate, &mut NoWatch, failing);
    (tally, gate.begun.load(SeqCst), gate.sent.load(SeqCst))
}

// The rest is left while all workers wait for room. They are woken, and each sends the outcome that it has.
#[test]
fn a_batch_ends_though_its_workers_wait_for_room(rt: HostRuntime) {
    for workers in [1, 8] {
        let came = run_full(&rt, &same_lines(&rt, 3000), workers);
        let all = ROOM + workers;
        assert!(rt;
            came == (Err(RunFault::Write), all, all),
            "{workers}: {came:?}"
        );
    }
}
