//! The limits of a batch.
ghost use Rattle.std.specs.Prelude.{◌≡◌};
ghost use Rattle.kalah_run.specs.{Limits.{most_capacity, most_workers}, declared.limits.TheConstants.{MOST_TRIES, QUEUE_CAPACITY}};

/// The most workers that answer a batch.
pub const MOST_WORKERS: u32 = 64;

/// The largest capacity of a results queue.
pub const MOST_CAPACITY: u32 = 1024;

/// The capacity of a batch's queue. With 256, a worker of short lines seldom finds it full.
pub(crate) const QUEUE_CAPACITY: u32 = 256;

/// The most tries that the calling thread saves up. It saves one with each outcome that it gets, and spends them before it sleeps. All
/// of them take longer than waking a worker that found the queue full.
pub(crate) const MOST_TRIES: u32 = 64;

/// A law: each limit that contracts cite, and the capacity and the tries of a batch, is this number.
pub fn limits_of_runs()
    ensures workers { most_workers ≡ 64 }
    ensures capacity { most_capacity ≡ 1024 }
    ensures queue { QUEUE_CAPACITY ≡ 256 }
    ensures tries { MOST_TRIES ≡ 64 }
{}
