//! Waiting for events of other threads: first by spinning briefly, then by sleeping. No contract mentions it, and no answer depends
//! on it: a thread that is woken tries for itself.
//!
//! Why no thread sleeps for long while what it waits for is there: a waiter stores 1 before the try after which it may sleep, and sleeps
//! only while the word is 1. What comes after its try owes a wake-up (`WakeUp`), which is sent on every path. It finds 1, stores 0 and
//! wakes a sleeper; or it finds 0, as an earlier one has stored it since. So the waiter does not fall asleep, or a sleeper has been woken
//! that stores 1 and tries after what has come. Once that one has what it waited for, it wakes the next. All steps are in one total order
//! (`SeqCst`).
//!
//! A try can also fail because another thread is in the way. If that thread has claimed a place and has not finished its step, that
//! step, after the try, brings what the waiter waits for, and its wake-up. If a worker lost a place to another worker, it may sleep
//! though there is room, but no longer than beside a full queue: what the other worker has put will be got, and that `get` wakes one.
//!
//! `tests/wakes` reads these steps here and in `queue.rt`, with the steps of the queue below. It goes through each order in which a few
//! threads can take them.
use crossbeam_utils::Backoff;
use std::sync::Wait;
use std::sync::atomic::AtomicU64;
use std::sync::atomic::Ordering::SeqCst;

/// A pause before a sleep takes this many steps of its backoff. The first pause spins, each step twice as long as the one before; the
/// second mostly yields the processor. Each try reads what the other side changes, and so delays it: a full queue moves on faster if it
/// isn't tried after each outcome.
const PAUSE_STEPS: u32 = 6;

/// The threads that wait for the same event, such as room in a queue. They are woken sequentially, so room for one doesn't wake all: a
/// wake-up wakes one, and none if one is under way. A thread that was woken, and got what it waited for, wakes the next.
#[derive(Drop)]
pub(crate) struct Waiters {
    // 1 from the time when a thread announces that it will sleep until a wake-up is sent.
    announced: AtomicU64,
}

impl Waiters {
    /// Makes waiters. None has announced that it will sleep.
    pub(crate) fn new() -> Waiters {
        Waiters {
            announced: AtomicU64::new(0),
        }
    }
}

/// A wake-up that is owed to threads that wait, as what they wait for has come. It isn't `Drop`: the compiler refuses each path that
/// doesn't send it.
pub(crate) struct WakeUp<'a> {
    waiters: &'a Waiters,
}

impl<'a> WakeUp<'a> {
    /// Makes the wake-up for what has just come.
    pub(crate) fn owed_to(waiters: &'a Waiters) -> WakeUp<'a> {
        WakeUp { waiters }
    }

    /// Wakes one of the threads that wait, if there is any. A thread that has announced itself and then found nothing is woken, or
    /// another one is that will wake it.
    pub(crate) fn send(self) {
        let WakeUp { waiters } = self;
        if waiters.announced.load(SeqCst) == 1 && waiters.announced.swap(0, SeqCst) == 1 {
            waiters.announced.wake_one();
        }
    }
}

/// One thread's wait, which ends when it is dropped: the thread then has what it waited for. Between two pauses it tries.
pub(crate) struct Waiting<'a> {
    waiters: &'a Waiters,
    backoff: Backoff,
    was_announced: bool,
}

impl<'a> Waiting<'a> {
    /// Starts a wait.
    pub(crate) fn new(waiters: &'a Waiters) -> Waiting<'a> {
        Waiting {
            waiters,
            backoff: Backoff::new(),
            was_announced: false,
        }
    }

    /// Pauses: first by spinning, later by announcing that the thread will sleep, after which it tries once more. What
    /// came before the announcement is found by that try, and what comes after it ends the sleep. The next pause sleeps.
    pub(crate) fn pause<R: Wait>(&mut self, rt: &R) {
        if self.was_announced {
            self.waiters.announced.park(rt, 1);
            self.waiters.announced.store(1, SeqCst);
        } else if self.backoff.is_completed() {
            self.was_announced = true;
            self.waiters.announced.store(1, SeqCst);
        } else {
            for _ in 0..PAUSE_STEPS {
                self.backoff.snooze();
            }
        }
    }
}

impl Drop for Waiting<'_> {
    // An announced thread may have been woken, so it wakes the next.
    fn drop(self) {
        let Waiting {
            waiters,
            backoff: _,
            was_announced,
        } = self;
        if was_announced {
            WakeUp::owed_to(waiters).send();
        }
    }
}
