//! How the calling thread collects what the workers send, while they run on further threads.
ghost use Rattle.std.specs.{Prelude.{◌≡◌, [], MatchOption}, Thread.{IsSync}};
ghost use Rattle.kalah_jobs.specs.Writing.Sink.{IsReady, WasGiven};
ghost use Rattle.kalah_run.specs.Batch.{AtWork.{AreAtWork, HaveRun}, Running.{HasCollected, IsAtStart, GetsNext}};

use crate::batch::crew::Crew;
use crate::batch::gate::Gate;
use crate::batch::ordered_output::OrderedOutput;
use crate::batch::receiver::{CallerPasses, Receiver};
use crate::batch::shared_work::SharedWork;
use crate::batch::watch::Watch;
use crate::batch::worker::Worker;
use kalah_jobs::{Outcome, Sink};
use std::snapshot::Snapshot;
use std::sync::Wait;
use std::thread;
use std::thread::{Promise, Threads};

// The thread returns the list of workers that it was given, and each has run.
#[derive(Drop)]
struct AllHaveRun<'a, 'b, G> {
    shared: &'a SharedWork<'b, G>,
    workers: Snapshot<Vec<Worker>>,
}

impl<'a, 'b, G: Gate> Promise<Vec<Worker>> for AllHaveRun<'a, 'b, G> {
    ghost use Rattle.kalah_run.specs.Batch.AtWork.{HaveRun};

    ghost kept_by = { λ p r. HaveRun G.knows p.shared.now p.workers.value.items r.items };
}

// Lets the output flush what it buffers, as its caller may wait then.
fn flush_to_wait<W: Sink>(out: &mut W)
    ensures unwritten { WasGiven W.state out.old out.new [] }
    ensures ready { IsReady (W.state out.new) }
{
    if !out.failed() {
        out.before_waiting();
    }
}

// Gets an outcome that did not come soon. The output flushes what it buffers before the wait. Returns `None` if none is to come, as the
// flush has failed and the rest is left.
#[cold]
#[inline(never)]
fn flush_and_get<R: Wait, V: Watch, W: Sink>(
    rt: &R,
    receiver: &mut Receiver<'_>,
    watch: &mut V,
    out: &mut W,
) -> Option<Outcome>
    ensures { GetsNext W.state receiver.old out.old result receiver.new out.new }
{
    flush_to_wait(out);
    if !receiver.prepare_next(out.failed()) {
        return None;
    }
    watch.on_waiting();
    Some(receiver.get(rt, watch, out))
}

// Offers each outcome that comes, and after each writes the lines that became ready. Before each wait it lets the output flush. If the
// output has failed and the rest is to be left, it draws all jobs that are left, so that no worker begins one, and accepts the outcomes
// of those that workers have drawn: one of them may sleep at the full queue. Returns both passes, to close the queue and the desk.
fn collect<R: Wait, V: Watch, W: Sink>(
    rt: &R,
    mut receiver: Receiver<'_>,
    mut output: OrderedOutput<'_>,
    watch: &mut V,
    out: &mut W,
) -> CallerPasses
    requires { IsAtStart receiver output }
    ensures collected { HasCollected W.state output.entry out.old out.new receiver.entry result }
    // The thread may wait for the workers to end.
    ensures ready { IsReady (W.state out.new) }
{
    output.write_ready(out);
    while receiver.prepare_next(out.failed()) {
        let outcome = match receiver.get_soon() {
            Some(outcome) => outcome,
            None => match flush_and_get(rt, &mut receiver, watch, out) {
                Some(outcome) => outcome,
                None => break,
            },
        };
        output.offer(outcome);
        output.write_ready(out);
        watch.on_accepted();
    }
    flush_to_wait(out);
    receiver.into_passes()
}

/// Runs the crew on further threads, and meanwhile accepts the outcome of each job and writes what is ready. Returns the workers and the
/// passes. Returns `None` if no thread could be started; then nothing is written.
pub(crate) fn collect_from_crew<R: Threads + Wait + Sync, G: Gate, V: Watch, W: Sink>(
    rt: &R,
    crew: Crew<'_, '_, G>,
    receiver: Receiver<'_>,
    output: OrderedOutput<'_>,
    watch: &mut V,
    out: &mut W,
) -> Option<(Vec<Worker>, CallerPasses)>
    requires { AreAtWork G.knows crew.shared.now crew.workers.items × IsAtStart receiver output }
    ensures { MatchOption result (out.new ≡ out.old) (λ r. HaveRun G.knows crew.entry.shared.now crew.entry.workers.items r.0.items
        × HasCollected W.state output.entry out.old out.new receiver.entry r.1) }
{
    let (ran, _watch, _out) = thread::scope(
        thread::scope_env(),
        rt,
        move |scope| -> (Option<(Vec<Worker>, CallerPasses)>, &mut V, &mut W)
            requires { IsSync R.row × IsSync G.row
                × AreAtWork G.knows crew.shared.now crew.workers.items × IsAtStart receiver output }
            ensures names { (result.1.ghost_name ≡ watch.entry.ghost_name) × (result.2.ghost_name ≡ out.entry.ghost_name) }
            ensures ran { MatchOption result.0 (result.2.now ≡ out.entry.now)
                (λ r. HaveRun G.knows crew.entry.shared.now crew.entry.workers.items r.0.items
                × HasCollected W.state output.entry out.entry.now result.2.now receiver.entry r.1) }
        {
            let all_have_run = AllHaveRun {
                shared: crew.shared,
                workers: Snapshot::of(&crew.workers),
            };
            let started = scope.spawn_with(
                all_have_run,
                move || -> Vec<Worker>
                    requires { AreAtWork G.knows crew.shared.now crew.workers.items }
                { crew.run(rt) },
            );
            let Ok(child) = started else {
                return (None, watch, out);
            };
            let passes = collect(rt, receiver, output, watch, out);
            let workers = child.join(rt);
            (Some((workers, passes)), watch, out)
        },
    );
    ran
}
