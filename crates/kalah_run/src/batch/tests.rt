//! Batches with several workers, and what the gate and the output get.
ghost use Rattle.kalah_run.specs.Limits.{IsTableSize, IsWorkerCount};

mod gate;
mod in_parallel;
mod out_of_memory;
mod writers;

use crate::{
    BatchRequest, Gate, OnFailedWrite, OpenGate, RunFault, Tally, Watch, answer_batch, solve_batch,
};
use kalah_jobs::{FileText, Question, Stream};
use std::alloc::{AllocError, Global};
use std::io::Write;
use std::process::Abort;
use std::sync::Wait;
use std::sync::atomic::AtomicU32;
use std::sync::atomic::Ordering::SeqCst;
use std::thread::Threads;
use std::{str, thread};

const ONE_AND_TWO: &str = "1/0 1/0\n2/0 2/0";

const ANSWERS: &str = "\
b.txt:1 0 house 1
b.txt:2 -2 house 1
c.txt:1 6 house 1
c.txt:2 fault empty
c.txt:3 fault shape
b.txt:1 0 house 1
b.txt:2 -2 house 1
";

// The tally of four files. One of them is named twice.
const SEVEN_LINES: Tally = Tally {
    lines: 7,
    faults: 2,
};

fn file_of(alloc: Global, name: &str, text: &str) -> Result<FileText, AllocError> {
    Ok(FileText {
        name: String::from_str(alloc, name)?,
        bytes: text.as_bytes().to_vec(alloc)?,
    })
}

// The names and the bytes of four files, one of them empty and one named twice.
const FOUR_FILES: &[(&str, &str)] = &[
    ("a.txt", ""),
    ("b.txt", ONE_AND_TWO),
    ("c.txt", "3/0 3/0\r\n\r\n01/0 1/0\r\n"),
    ("b.txt", ONE_AND_TWO),
];

// The four files, with seven lines and two faults.
fn four_files(alloc: Global) -> Result<Vec<FileText>, AllocError> {
    let mut files = Vec::new(alloc);
    for (name, text) in FOUR_FILES {
        files.push(file_of(alloc, name, text)?)?;
    }
    Ok(files)
}

// One file of `count` lines `1/0 1/0`.
fn same_lines<R: Abort + AllocGlobal>(rt: &R, count: u32) -> [FileText; 1] {
    let alloc = rt.alloc();
    let text = "1/0 1/0\n".repeat(alloc, count as usize);
    let text = text.expect(rt, "no memory");
    [file_of(alloc, "n", text.as_str()).expect(rt, "no memory")]
}

/// Counts the jobs that have begun, and those whose outcome is sent. No other job begins before the outcome of the first is sent, so that
/// one is got first.
#[derive(Drop)]
struct Counting {
    begun: AtomicU32,
    sent: AtomicU32,
}

impl Counting {
    fn new() -> Counting {
        Counting {
            begun: AtomicU32::new(0),
            sent: AtomicU32::new(0),
        }
    }
}

impl Gate for Counting {
    fn before(&self, job: u32) {
        if job > 0 {
            comes_to(&self.sent, 1);
        }
        self.begun.fetch_add(1, SeqCst);
    }

    fn after(&self, _job: u32) {
        self.sent.fetch_add(1, SeqCst);
    }
}

// Waits until the counter is at least `count`. Gives up after ten million turns, and returns whether it is.
fn comes_to(counter: &AtomicU32, count: u32) -> bool {
    for _ in 0..10_000_000u32 {
        if counter.load(SeqCst) >= count {
            return true;
        }
        thread::yield_now();
    }
    false
}

// The tally of a batch of this many lines, without a fault.
fn tally_of(lines: u32) -> Tally {
    Tally { lines, faults: 0 }
}

// What is asked of the lines of the files, by workers with small tables.
fn request_of(
    question: Question,
    files: &[FileText],
    workers: u32,
    on_failed_write: OnFailedWrite,
) -> BatchRequest<'_>
    requires workers { IsWorkerCount workers }
{
    BatchRequest {
        question,
        files,
        workers,
        table: 16,
        on_failed_write,
    }
}

// Answers the request into this writer. Returns the result and the writer.
fn answer_into<R: AllocGlobal + Threads + Wait + Sync, G: Gate, V: Watch, W: Write>(
    rt: &R,
    request: &BatchRequest<'_>,
    gate: &G,
    watch: &mut V,
    writer: W,
) -> (Result<Tally, RunFault>, W) {
    let mut out = Stream::new(writer);
    let tally = answer_batch(rt, rt.alloc(), request, gate, watch, &mut out);
    (tally, out.into_inner())
}

// Solves the files into this writer. Returns the result and the writer.
fn solve_into<R: AllocGlobal + Threads + Wait + Sync, G: Gate, W: Write>(
    rt: &R,
    files: &[FileText],
    workers: u32,
    table_entries: u32,
    gate: &G,
    writer: W,
) -> (Result<Tally, RunFault>, W)
    requires workers { IsWorkerCount workers }
    requires table { IsTableSize table_entries }
{
    let mut out = Stream::new(writer);
    let tally = solve_batch(
        rt,
        rt.alloc(),
        files,
        workers,
        table_entries,
        gate,
        &mut out,
    );
    (tally, out.into_inner())
}

// Solving the files writes this text, and this is the tally.
fn assert_solved<R: Abort + AllocGlobal + Threads + Wait + Sync, G: Gate>(
    rt: &R,
    files: &[FileText],
    workers: u32,
    table_entries: u32,
    gate: &G,
    text: &str,
    tally: Tally,
)
    requires workers { IsWorkerCount workers }
    requires table { IsTableSize table_entries }
{
    let bytes = Vec::<u8>::new(rt.alloc());
    let (came, bytes) = solve_into(rt, files, workers, table_entries, gate, bytes);
    let written = str::from_utf8(bytes.as_slice()).unwrap_or("no text");
    assert!(rt; came == Ok(tally) && written == text, "{came:?} {written}");
}

// The batch of `lines` lines `1/0 1/0` writes their answers.
fn assert_lines_answered<R: Abort + AllocGlobal + Threads + Wait + Sync, G: Gate>(
    rt: &R,
    lines: u32,
    workers: u32,
    gate: &G,
)
    requires { IsWorkerCount workers }
{
    let alloc = rt.alloc();
    let files = same_lines(rt, lines);
    let mut text = String::new(alloc);
    for line in 0..lines {
        let answer = format!(in alloc; "n:{} 0 house 1\n", line as u64 + 1);
        let answer = answer.expect(rt, "no memory");
        text.push_str(answer.as_str()).expect(rt, "no memory");
    }
    let tally = tally_of(lines);
    assert_solved(rt, &files, workers, 16, gate, text.as_str(), tally);
}

#[test]
fn lines_are_answered_in_order_by_any_number_of_workers(rt: HostRuntime) {
    let files = four_files(rt.alloc()).expect(&rt, "no memory");
    let files = files.as_slice();
    for workers in [1, 2, 64] {
        for entries in [1, 65_536] {
            assert_solved(
                &rt,
                files,
                workers,
                entries,
                &OpenGate,
                ANSWERS,
                SEVEN_LINES,
            );
        }
    }
    assert_solved(&rt, &[], 3, 1, &OpenGate, "", tally_of(0));
}

// More lines than there are workers, and more than the queue has places.
#[test]
fn many_lines_are_answered(rt: HostRuntime) {
    for lines in [200, 1000] {
        assert_lines_answered(&rt, lines, 64, &OpenGate);
    }
}
