//! Numbers that are drawn from a desk, each once.
ghost use Rattle.std.specs.Prelude.{◌≡◌, length, All};
ghost use Rattle.kalah_run.specs.Desk.States.{IsPassAt};

use super::*;
use crate::tests::{assert_each, counters};
use std::sync::atomic::AtomicU32;
use std::sync::atomic::Ordering::SeqCst;
use std::thread;
use std::thread::Threads;

// Draws with the pass until a draw returns `None`, and counts each number. No pass draws more than 1000.
fn draw_all(desk: &Desk, pass: &mut Pass, counts: &[AtomicU32])
    requires { IsPassAt desk.now pass.old }
    ensures { IsPassAt desk.now pass.new }
{
    for _ in 0..=1000u32 {
        let Some(number) = desk.draw(pass) else {
            return;
        };
        if let Some(count) = counts.get(number as usize) {
            count.fetch_add(1, SeqCst);
        }
    }
}

// All passes draw in parallel, each in a thread of its own.
fn draw_in_threads<R: Threads + Sync>(
    rt: &R,
    desk: &Desk,
    passes: &mut Vec<Pass>,
    counts: &[AtomicU32],
)
    requires { All (IsPassAt desk.now) passes.old.items }
    ensures all { length passes.new.items ≡ length passes.old.items }
    ensures own { All (IsPassAt desk.now) passes.new.items }
{
    thread::for_each_mut(
        rt,
        passes.as_mut_slice(),
        64,
        &|_, pass: &mut Pass|
            requires { IsPassAt desk.now pass.old }
            ensures { IsPassAt desk.entry.now pass.new }
        { draw_all(desk, pass, counts) },
    );
}

#[test]
fn threads_draw_each_number_once(rt: HostRuntime) {
    let counts = counters(&rt, 1000);
    let opened = Desk::open(rt.alloc(), 1000, 64);
    let (desk, mut passes) = opened.expect(&rt, "no memory");
    draw_in_threads(&rt, &desk, &mut passes, counts.as_slice());
    let closed = desk.close(passes);
    assert!(rt; (closed.drawn(), closed.spent()) == (1000, true));
    assert_each(&rt, counts.as_slice(), 1);
}
