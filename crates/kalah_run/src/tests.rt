//! Tests over several modules, and what they share.
mod out_of_memory;

use kalah_jobs::{Entry, LineFault, Outcome};
use kalah_solve::{Solver, Table};
use std::alloc::{AllocError, Global};
use std::process::Abort;
use std::sync::atomic::AtomicU32;
use std::sync::atomic::Ordering::SeqCst;
use std::test::Fail;

/// Makes a request that is refused only if none before it was.
pub(crate) fn mark(alloc: Global, place: &'static str) -> Result<(), Fail> {
    match Box::new(alloc, 0u8) {
        Ok(_) => Ok(()),
        Err(_) => Err(Fail::new(place)),
    }
}

/// The outcomes of two lines of two files.
pub(crate) fn two_outcomes(alloc: Global) -> Result<(Outcome, Outcome), AllocError> {
    let table = Table::new(alloc, 16).or_else(|_| Table::new(alloc, 16))?;
    let mut solver = Solver::new(table);
    let first = Outcome::of(0, 3, Entry::Bad(LineFault::Long), &mut solver);
    let second = Outcome::of(1, 4, Entry::Bad(LineFault::Seeds), &mut solver);
    Ok((first, second))
}

/// As many counters, each at 0.
pub(crate) fn counters<R: Abort + AllocGlobal>(rt: &R, count: u32) -> Vec<AtomicU32> {
    let mut counters = Vec::new(rt.alloc());
    for _ in 0..count {
        counters.push(AtomicU32::new(0)).expect(rt, "no memory");
    }
    counters
}

/// Each counter is at `count`.
pub(crate) fn assert_each<R: Abort>(rt: &R, counters: &[AtomicU32], count: u32) {
    for (number, counter) in counters.iter().enumerate() {
        let counted = counter.load(SeqCst);
        assert!(rt; counted == count, "{number}: {counted}");
    }
}
