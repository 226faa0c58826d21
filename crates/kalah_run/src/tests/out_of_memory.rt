//! Tests in which each request for memory is refused once. With ample memory these tests just pass. `tests/refuse` runs each of them
//! repeatedly, with the first request refused, then the second, and so on: the test must pass each time, until the request that
//! is refused is one of its own marks.
ghost use Rattle.std.specs.Prelude.{◌≡◌, ◌<◌, ◌≤◌, All, IfOk, length, vec_len};
ghost use Rattle.kalah_run.specs.{Desk.States.{IsPassAt}, Queue.States.{ArePassesFrom}};

use crate::tests::{mark, two_outcomes};
use crate::{Desk, Gate, GetPass, OpenGate, Pass, PutPass, ResultsQueue};
use kalah_jobs::Outcome;
use std::alloc::Global;
use std::process::Abort;
use std::sync::Wait;
use std::test::Fail;

// What one of the passes draws.
fn draw_by(desk: &Desk, passes: &mut Vec<Pass>, k: usize) -> Option<u32>
    requires there { k < length passes.old.items }
    requires own { All (IsPassAt desk.now) passes.old.items }
    ensures many { length passes.new.items ≡ length passes.old.items }
    ensures own { All (IsPassAt desk.now) passes.new.items }
{
    desk.draw(&mut passes[k])
}

// What two passes draw of three numbers, alternately, and what the desk then reports.
fn drawn_in_turn(opened: (Desk, Vec<Pass>)) -> ([Option<u32>; 5], (u32, bool))
    requires many { (opened.0.passes ≡ 2) × (length opened.1.items ≡ 2) }
    requires own { All (IsPassAt opened.0) opened.1.items }
{
    let (desk, mut passes) = opened;
    let drawn = [
        draw_by(&desk, &mut passes, 0),
        draw_by(&desk, &mut passes, 1),
        draw_by(&desk, &mut passes, 0),
        draw_by(&desk, &mut passes, 1),
        draw_by(&desk, &mut passes, 1),
    ];
    let closed = desk.close(passes);
    (drawn, (closed.drawn(), closed.spent()))
}

// What the one pass of a desk draws first, and what the desk reports if it is closed then.
fn drawn_first(opened: (Desk, Vec<Pass>)) -> (Option<u32>, (u32, bool))
    requires many { (opened.0.passes ≡ 1) × (length opened.1.items ≡ 1) }
    requires own { All (IsPassAt opened.0) opened.1.items }
{
    let (desk, mut passes) = opened;
    let drawn = draw_by(&desk, &mut passes, 0);
    let closed = desk.close(passes);
    (drawn, (closed.drawn(), closed.spent()))
}

// Opens a desk, after which no memory is needed.
fn open_desk(alloc: Global, total: u32, passes: u32) -> Result<(Desk, Vec<Pass>), Fail>
    requires total { total ≤ 1000000 }
    requires passes { passes ≤ 65 }
    ensures many { IfOk result (λ r. (r.0.passes ≡ passes) × (length r.1.items ≡ passes)) }
    ensures own { IfOk result (λ r. All (IsPassAt r.0) r.1.items) }
{
    let opened = Desk::open(alloc, total, passes).or_else(|_| Desk::open(alloc, total, passes))?;
    mark(alloc, "before the calls without memory")?;
    Ok(opened)
}

#[test]
fn a_desk(rt: HostRuntime) -> Result<(), Fail> {
    let alloc = rt.alloc();
    let (drawn, closed) = drawn_in_turn(open_desk(alloc, 3, 2)?);
    assert!(rt; drawn == [Some(0), Some(1), Some(2), None, None]);
    assert!(rt; closed == (3, true));
    mark(alloc, "after all")
}

// The one pass of a desk draws this first, and then the desk reports that.
fn draw_first<R: Abort>(
    rt: &R,
    alloc: Global,
    total: u32,
    drawn: (Option<u32>, (u32, bool)),
) -> Result<(), Fail>
    requires { total ≤ 1000000 }
{
    assert!(rt; drawn_first(open_desk(alloc, total, 1)?) == drawn);
    mark(alloc, "after all")
}

#[test]
fn a_desk_with_no_number(rt: HostRuntime) -> Result<(), Fail> {
    draw_first(&rt, rt.alloc(), 0, (None, (0, true)))
}

#[test]
fn a_desk_closed_before_all_is_drawn(rt: HostRuntime) -> Result<(), Fail> {
    draw_first(&rt, rt.alloc(), 5, (Some(0), (1, false)))
}

// Whether of two outcomes that two workers put the first is got, and then the other one, if it is to be got, and how many are left.
fn got_of<R: Wait>(
    rt: &R,
    opened: (ResultsQueue, Vec<PutPass>, GetPass),
    sent: &(Outcome, Outcome),
    gets_both: bool,
) -> (bool, bool, u32)
    requires puts { (vec_len opened.1 ≡ 2) × ArePassesFrom opened.0.id 0 opened.1.items }
    requires gets { (opened.2.queue ≡ opened.0.id) × (opened.2.workers ≡ 2) }
{
    let (queue, mut puts, mut pass) = opened;
    queue.put(rt, &mut puts[0], sent.0);
    queue.put(rt, &mut puts[1], sent.1);
    let first = queue.get(rt, &mut pass) == sent.0;
    let second = gets_both && queue.get(rt, &mut pass) == sent.1;
    (first, second, queue.close(rt, puts, pass).left())
}

// The same of two outcomes and a queue that is opened for them.
fn got_of_two<R: Wait>(rt: &R, alloc: Global, gets_both: bool) -> Result<(bool, bool, u32), Fail> {
    let sent = two_outcomes(alloc)?;
    let opened = ResultsQueue::open(alloc, 2, 2).or_else(|_| ResultsQueue::open(alloc, 2, 2))?;
    mark(alloc, "before the calls without memory")?;
    Ok(got_of(rt, opened, &sent, gets_both))
}

#[test]
fn a_results_queue_with_one_left(rt: HostRuntime) -> Result<(), Fail> {
    assert!(rt; got_of_two(&rt, rt.alloc(), false)? == (true, false, 1));
    mark(rt.alloc(), "after all")
}

#[test]
fn a_results_queue_with_none_left(rt: HostRuntime) -> Result<(), Fail> {
    assert!(rt; got_of_two(&rt, rt.alloc(), true)? == (true, true, 0));
    mark(rt.alloc(), "after all")
}

#[test]
fn the_open_gate_takes_no_memory(rt: HostRuntime) -> Result<(), Fail> {
    let alloc = rt.alloc();
    mark(alloc, "before the calls without memory")?;
    OpenGate.before(0);
    OpenGate.after(0);
    mark(alloc, "after all")
}
