//! Many small batches through queues small and large, which run full and empty in parallel, with many threads: a wake-up
//! that is lost leaves a thread asleep, and the test has no end.
ghost use Rattle.std.specs.Prelude.{◌≡◌, ◌≤◌, ◌*◌, All};
ghost use Rattle.kalah_run.specs.Limits.{IsQueueCapacity, IsWorkerCount};

use crate::tests::two_outcomes;
use crate::{GetPass, PutPass, ResultsQueue};
use kalah_jobs::Outcome;
use std::alloc::{AllocError, Global};
use std::sync::Wait;
use std::thread;
use std::thread::Threads;

// Puts the outcome repeatedly.
fn put_often<R: Wait>(
    rt: &R,
    queue: &ResultsQueue,
    pass: &mut PutPass,
    times: u32,
    outcome: Outcome,
)
    requires { pass.old.queue ≡ queue.now.id }
{
    for _ in 0..times {
        queue.put(rt, pass, outcome);
    }
}

// Each worker puts the outcome repeatedly, in a thread of its own.
fn put_all<R: Threads + Wait + Sync>(
    rt: &R,
    queue: &ResultsQueue,
    mut puts: Vec<PutPass>,
    each: u32,
    outcome: Outcome,
)
    requires { All (λ p. p.queue ≡ queue.now.id) puts.items }
{
    thread::for_each_mut(
        rt,
        puts.as_mut_slice(),
        64,
        &|_, pass: &mut PutPass|
            requires { pass.old.queue ≡ queue.now.id }
        {
            put_often(rt, queue, pass, each, outcome);
        },
    );
}

// Gets `total` outcomes.
fn get_all<R: Wait>(rt: &R, queue: &ResultsQueue, mut pass: GetPass, total: u32)
    requires { pass.queue ≡ queue.now.id }
{
    for _ in 0..total {
        queue.get(rt, &mut pass);
    }
}

// All outcomes are put by the workers, each in a thread of its own, and got by this one.
fn through_threads<R: Threads + Wait + Sync>(
    rt: &R,
    queue: &ResultsQueue,
    passes: (Vec<PutPass>, GetPass),
    each: u32,
    total: u32,
    outcome: Outcome,
)
    requires puts { All (λ p. p.queue ≡ queue.now.id) passes.0.items }
    requires gets { passes.1.queue ≡ queue.now.id }
{
    let (puts, pass) = passes;
    thread::join(
        rt,
        move ||
            requires { All (λ p. p.queue ≡ queue.now.id) puts.items }
        { put_all(rt, queue, puts, each, outcome) },
        move ||
            requires { pass.queue ≡ queue.now.id }
        { get_all(rt, queue, pass, total) },
    );
}

// Sends `each` outcomes of each worker through a queue of this capacity.
fn run_batch<R: Threads + Wait + Sync>(
    rt: &R,
    alloc: Global,
    capacity: u32,
    workers: u32,
    each: u32,
    outcome: Outcome,
) -> Result<(), AllocError>
    requires capacity { IsQueueCapacity capacity }
    requires workers { IsWorkerCount workers }
    requires few { each ≤ 200 }
{
    let (queue, puts, pass) = ResultsQueue::open(alloc, capacity, workers)?;
    through_threads(rt, &queue, (puts, pass), each, workers * each, outcome);
    Ok(())
}

// Runs batches sequentially, of up to 200 outcomes.
fn run_stream<R: Threads + Wait + Sync>(rt: &R, alloc: Global) -> Result<(), AllocError> {
    let (outcome, _) = two_outcomes(alloc)?;
    for capacity in [1, 2, 3, 4, 1024] {
        for workers in [1, 2, 3, 4, 64] {
            for lines in [7, 20, 64, 100, 200] {
                run_batch(rt, alloc, capacity, workers, lines / workers, outcome)?;
            }
        }
    }
    Ok(())
}

// Eight streams in parallel.
#[test]
fn a_thousand_small_batches_come_through(rt: HostRuntime) {
    let streams = thread::map_indices(
        &rt,
        rt.alloc(),
        8,
        &|_stream: usize| { run_stream(&rt, rt.alloc()) },
    );
    for came_through in streams.expect(&rt, "no memory for the streams").as_slice() {
        assert!(rt; came_through.is_ok());
    }
}
