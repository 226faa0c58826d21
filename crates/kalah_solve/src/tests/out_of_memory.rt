//! Tests in which each request for memory of the global allocator is refused once. With ample memory these tests just pass.
//! `tests/refuse` runs each of them repeatedly, with the first request refused, then the second, and so on: the test must
//! pass each time, until the request that is refused is one of its own marks.
ghost use Rattle.std.specs.Prelude.{◌≤◌};
ghost use Rattle.kalah_solve.specs.Table.Entries.{most_entries};

use crate::key::tests::assert_keys;
use crate::solver::tests::{SAME_HOUSES, WORKED, Worked, solver_with, solves};
use crate::{Solver, Table};
use std::alloc::{AllocError, Global};
use std::process::Abort;
use std::test::Fail;

// Makes a request that is refused only if none before it was.
fn mark(alloc: Global, place: &'static str) -> Result<(), Fail> {
    match Box::new(alloc, 0u8) {
        Ok(_) => Ok(()),
        Err(_) => Err(Fail::new(place)),
    }
}

// Makes a table, at the second try if the first was refused.
fn new_table(alloc: Global, capacity: u32) -> Result<Table, AllocError>
    requires low { 1 ≤ capacity }
    requires high { capacity ≤ most_entries }
{
    match Table::new(alloc, capacity) {
        Ok(table) => Ok(table),
        Err(_) => Table::new(alloc, capacity),
    }
}

#[test]
fn a_key_and_a_solver_take_no_memory(rt: HostRuntime) -> Result<(), Fail> {
    let table = new_table(rt.alloc(), 1)?;
    mark(rt.alloc(), "before the calls without memory")?;
    assert_keys(&rt);
    let _solver = Solver::new(table);
    mark(rt.alloc(), "after all")
}

// Solves positions with a table of this capacity, into which each answer is put if it `keeps_all`.
fn solves_with(
    rt: &(impl Abort + AllocGlobal),
    capacity: u32,
    keeps_all: bool,
    positions: &[Worked],
) -> Result<(), Fail>
    requires low { 1 ≤ capacity }
    requires high { capacity ≤ most_entries }
{
    let table = new_table(rt.alloc(), capacity)?;
    solves(rt, &mut solver_with(table, keeps_all), positions);
    mark(rt.alloc(), "after all")
}

#[test]
fn one_table_for_two_positions(rt: HostRuntime) -> Result<(), Fail> {
    solves_with(&rt, 1, false, &SAME_HOUSES)
}

#[test]
fn one_entry_for_two_positions(rt: HostRuntime) -> Result<(), Fail> {
    solves_with(&rt, 1, true, &SAME_HOUSES)
}

// Each answer has an entry of its own, for which it takes memory.
#[test]
fn many_entries(rt: HostRuntime) -> Result<(), Fail> {
    solves_with(&rt, 1_024, true, &WORKED)
}

#[test]
fn a_solver_beside_another(rt: HostRuntime) -> Result<(), Fail> {
    let first = Solver::new(new_table(rt.alloc(), 1)?);
    let mut second = match first.sharing_endings(rt.alloc(), 1) {
        Ok(second) => second,
        Err(_) => first.sharing_endings(rt.alloc(), 1)?,
    };
    solves(&rt, &mut second, &SAME_HOUSES);
    mark(rt.alloc(), "after all")
}
