//! The results queue: outcomes on their way from many workers to one thread.
ghost use Rattle.std.specs.Prelude.{◌≡◌, ◌≤◌, ◌<◌, ℕ, false, List, [], ◌∷◌, ◌++◌, length, All, IfNone, IfOk, MatchOption, vec_len};
ghost use Rattle.kalah_run.specs.{Limits.{IsQueueCapacity, IsWorkerCount}, Queue.States.{WorkerOutcome, ArePassesFrom, HasGot, MayGet, sent_by, Accounts}};

pub(crate) mod passes;
pub(crate) mod protocol;
mod waiting;

use crate::queue::passes::{GetPass, PutPass};
use crate::queue::protocol::{GetOutcome, HandOut, LearnSent, PutOutcome, Reclaim, RuledQueue};
use crate::queue::waiting::{Waiters, Waiting, WakeUp};
use crossbeam_utils::{Backoff, CachePadded};
use kalah_jobs::Outcome;
use std::alloc::{AllocError, Global};
use std::marker::Model;
use std::sync::Wait;

#[cfg(test)]
mod tests;

/// A queue of fixed capacity that threads share: workers put outcomes, and one thread gets them. Contracts see it as its
/// identity and its capacity.
#[derive(Drop)]
pub struct ResultsQueue {
    outcomes: RuledQueue,
    // The threads that wait for an outcome, and those that wait for room. Threads change these all the time, and read what is next to them.
    getters: CachePadded<Waiters>,
    putters: CachePadded<Waiters>,
}

impl Model for ResultsQueue {
    ghost use Rattle.std.specs.Prelude.{◌≤◌};
    ghost use Rattle.crossbeam_queue.specs.Passes.{ruled_capacity};
    ghost use Rattle.kalah_run.specs.{Limits.{most_capacity}, Queue.States.{QueueState}};

    ghost Value = { QueueState };

    ghost view = { λ q. record { id = q.outcomes.table.shared.table_id; capacity = ruled_capacity q.outcomes } };

    ghost invariant = { λ q. ruled_capacity q.outcomes ≤ most_capacity };
}

impl ResultsQueue {
    /// Opens a queue that holds up to `capacity` outcomes, 1 to 1024, for `workers` workers, 1 to 64. Returns it with a pass to put for
    /// each worker, in the order of their numbers from 0 on, and the one pass to get. Nothing was sent or got yet.
    ///
    /// Fails with `AllocError` only if memory was refused.
    pub fn open(
        alloc: Global,
        capacity: u32,
        workers: u32,
    ) -> Result<(ResultsQueue, Vec<PutPass>, GetPass), AllocError>
        requires capacity { IsQueueCapacity capacity }
        requires workers { IsWorkerCount workers }
        ensures queue { IfOk result (λ r. r.0.capacity ≡ capacity) }
        ensures puts { IfOk result (λ r. (vec_len r.1 ≡ workers) × ArePassesFrom r.0.id 0 r.1.items × All (λ p. p.sent ≡ []) r.1.items) }
        ensures get { IfOk result (λ r. r.2 ≡ record { queue = r.0.id; workers = workers; got = [] }) }
    {
        let mut puts = Vec::with_capacity(alloc, workers as usize)?;
        let (outcomes, mut ruled) = RuledQueue::ruled(alloc, capacity as usize)?;
        for _ in 0..workers {
            let theirs = outcomes.another::<HandOut>(&mut ruled);
            puts.push_reserved(PutPass { ruled: theirs });
        }
        let queue = ResultsQueue {
            outcomes,
            getters: CachePadded::new(Waiters::new()),
            putters: CachePadded::new(Waiters::new()),
        };
        Ok((queue, puts, GetPass { ruled }))
    }

    /// Puts the outcome after all that this worker has sent. Blocks while the queue is full: first by spinning briefly, then by sleeping.
    #[inline(always)]
    pub fn put<R: Wait>(&self, rt: &R, pass: &mut PutPass, outcome: Outcome)
        requires { pass.old.queue ≡ self.now.id }
        ensures { pass.new ≡ record pass.old { sent = pass.old.sent ++ outcome ∷ [] } }
    {
        match self.try_put(pass, &outcome) {
            Some(wake_up) => wake_up.send(),
            None => {
                // A copy, so that an outcome that is put at once may be kept in registers.
                let late = outcome;
                self.put_later(rt, pass, &late)
            }
        }
    }

    // Puts the outcome, for which there was no room.
    #[cold]
    #[inline(never)]
    fn put_later<R: Wait>(&self, rt: &R, pass: &mut PutPass, outcome: &Outcome)
        requires { pass.old.queue ≡ self.now.id }
        ensures { pass.new ≡ record pass.old { sent = pass.old.sent ++ outcome.now ∷ [] } }
    {
        let mut waiting = Waiting::new(&self.putters);
        for _ in rt.forever() {
            if let Some(wake_up) = self.try_put(pass, outcome) {
                drop(waiting);
                wake_up.send();
                return;
            }
            waiting.pause(rt);
        }
        unreachable!()
    }

    // Puts the outcome if there is room, and returns the wake-up that is owed for it.
    #[inline(always)]
    fn try_put(&self, pass: &mut PutPass, outcome: &Outcome) -> Option<WakeUp<'_>>
        requires { pass.old.queue ≡ self.now.id }
        ensures { MatchOption result (pass.new ≡ pass.old) (λ _. pass.new ≡ record pass.old { sent = pass.old.sent ++ outcome.now ∷ [] }) }
    {
        match self
            .outcomes
            .try_push_as::<PutOutcome>(&mut pass.ruled, *outcome)
        {
            Ok(()) => Some(WakeUp::owed_to(&self.getters)),
            Err(_) => None,
        }
    }

    /// Removes an outcome, the next of one of the workers, and returns it. Blocks while there is none: first by spinning briefly, then by
    /// sleeping.
    pub fn get<R: Wait>(&self, rt: &R, pass: &mut GetPass) -> Outcome
        requires { pass.old.queue ≡ self.now.id }
        ensures { HasGot pass.old result pass.new }
    {
        let mut waiting = Waiting::new(&self.getters);
        for _ in rt.forever() {
            if let Some((outcome, wake_up)) = self.try_get(pass) {
                drop(waiting);
                wake_up.send();
                return outcome;
            }
            waiting.pause(rt);
        }
        unreachable!()
    }

    // Gets an outcome, if there is one, and returns it with the wake-up that is owed for its place.
    #[inline(always)]
    fn try_get(&self, pass: &mut GetPass) -> Option<(Outcome, WakeUp<'_>)>
        requires { pass.old.queue ≡ self.now.id }
        ensures { MatchOption result (pass.new ≡ pass.old) (λ got. HasGot pass.old got.0 pass.new) }
    {
        let outcome = self.outcomes.try_pop_as::<GetOutcome>(&mut pass.ruled)?;
        Some((outcome, WakeUp::owed_to(&self.putters)))
    }

    /// Like `get`, but never sleeps: returns `None`, with nothing got, if `tries` tries find no outcome. Each such try is spent. Only
    /// four of them, early ones, yield the processor, so that they soon end also on a busy machine.
    #[inline(always)]
    pub(crate) fn get_soon(&self, pass: &mut GetPass, tries: &mut u32) -> Option<Outcome>
        requires { pass.old.queue ≡ self.now.id }
        ensures pass { MayGet pass.old result pass.new }
        ensures spent { MatchOption result (tries.new ≡ 0) (λ _. tries.new ≤ tries.old) }
    {
        let backoff = Backoff::new();
        while *tries > 0 {
            if let Some((outcome, wake_up)) = self.try_get(pass) {
                wake_up.send();
                return Some(outcome);
            }
            *tries -= 1;
            if backoff.is_completed() {
                spin_shortly();
            } else {
                backoff.snooze();
            }
        }
        None
    }

    /// Closes the queue. It reclaims all its passes, those to put in the order of `open`, and returns how many outcomes were
    /// left inside, which are dropped. What was got, followed by what was left, is of each worker what that worker sent.
    pub fn close<R: Wait>(self, rt: &R, puts: Vec<PutPass>, pass: GetPass) -> ClosedQueue
        requires puts { (vec_len puts ≡ pass.workers) × ArePassesFrom self.id 0 puts.items }
        requires get { pass.queue ≡ self.id }
        ensures whole { (rest : List WorkerOutcome) × (length rest ≡ result.left)
            × Accounts pass.workers (sent_by puts.items) (pass.got ++ rest) }
        ensures few { result.left ≤ self.capacity }
    {
        let ResultsQueue {
            outcomes,
            getters: _,
            putters: _,
        } = self;
        let GetPass { mut ruled } = pass;
        for put in puts {
            let PutPass { ruled: theirs } = put;
            outcomes.absorb::<Reclaim>(&mut ruled, theirs);
        }
        let left = outcomes.len_as::<LearnSent, R>(rt, &mut ruled);
        ClosedQueue { left: left as u32 }
    }
}

/// The result of closing a queue.
#[derive(Clone, Copy, Debug, PartialEq, Eq)]
pub struct ClosedQueue {
    left: u32,
}

impl ClosedQueue {
    /// Returns how many outcomes were put and not got.
    pub fn left(&self) -> u32
        ensures { result ≡ self.now.left }
    {
        self.left
    }
}

// Pauses for a microsecond or two. It never yields: on a busy machine the other threads then run for some milliseconds.
fn spin_shortly() {
    let backoff = Backoff::new();
    for _ in 0..5 {
        backoff.spin();
    }
}
