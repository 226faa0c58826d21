//! Shows that boards, their moves and their end request no memory: `tests/refuse` runs this test with its first request refused, and then
//! with its second, and these must be its two marks.
use crate::Rule;
use crate::board::tests::{assert_limits, assert_moves, assert_positions};
use std::alloc::Global;
use std::test::Fail;

// Requests memory, to mark this place. Fails if that is refused.
fn mark(alloc: Global, place: &'static str) -> Result<(), Fail> {
    match Box::new(alloc, 0u8) {
        Ok(_) => Ok(()),
        Err(_) => Err(Fail::new(place)),
    }
}

#[test]
fn the_rules_take_no_memory(rt: HostRuntime) -> Result<(), Fail> {
    mark(rt.alloc(), "before the calls without memory")?;
    assert_moves(&rt);
    assert_positions(&rt);
    assert_limits(&rt, Rule::Classic);
    assert_limits(&rt, Rule::EmptyCapture);
    mark(rt.alloc(), "after all")
}
