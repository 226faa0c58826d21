//! A batch with each request for memory refused once.
use super::{ANSWERS, SEVEN_LINES, four_files, solve_into};
use crate::tests::mark;
use crate::{OpenGate, RunFault, Tally};
use kalah_jobs::FileText;
use std::process::Abort;
use std::sync::Wait;
use std::test::Fail;
use std::thread::Threads;

// The result of the batch of the files, with a writer that has all its room. If memory is refused, nothing was written,
// otherwise all answers.
fn answer_of<R: Abort + AllocGlobal + Threads + Wait + Sync>(
    rt: &R,
    files: &[FileText],
) -> Result<Result<Tally, RunFault>, Fail> {
    let alloc = rt.alloc();
    let room = Vec::<u8>::with_capacity(alloc, 1024).or_else(|_| Vec::with_capacity(alloc, 1024))?;
    let (answer, written) = solve_into(rt, files, 2, 16, &OpenGate, room);
    let text = if answer.is_ok() { ANSWERS } else { "" };
    assert!(rt; written.as_slice() == text.as_bytes());
    Ok(answer)
}

// The files are answered, at the second try if memory was refused at the first.
#[test]
fn a_batch_of_two_workers(rt: HostRuntime) -> Result<(), Fail> {
    let alloc = rt.alloc();
    let files = four_files(alloc).or_else(|_| four_files(alloc))?;
    let mut answer = answer_of(&rt, files.as_slice())?;
    if let Err(fault) = answer {
        assert!(rt; fault == RunFault::OutOfMemory || fault == RunFault::NoWorker);
        answer = answer_of(&rt, files.as_slice())?;
    }
    assert!(rt; answer? == SEVEN_LINES);
    mark(alloc, "after all")
}
