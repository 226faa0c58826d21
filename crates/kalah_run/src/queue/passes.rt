//! The passes of a results queue: what each stores, and what contracts see of it.
ghost use Rattle.std.specs.Prelude.{◌≡◌, []};
ghost use Rattle.crossbeam_queue.specs.Passes.{view as view_of};
ghost use Rattle.kalah_run.specs.{Queue.{Protocol.{sent_in, worker_in, got_in, workers_in}, States.{PutPassState, GetPassState}}, declared.queue.protocol.QueueView.TheVariants.{Putting, Getting}};

use crate::queue::protocol::RuledPass;
use std::marker::Model;

/// One worker's right to put. Contracts see it as the identity of its queue, the worker's number, and all that was put through
/// it, in order.
#[derive(Drop)]
pub struct PutPass {
    pub(crate) ruled: RuledPass,
}

impl Model for PutPass {
    ghost Value = { PutPassState };

    ghost view = { λ p. record { queue = p.ruled.table_id; number = worker_in (view_of p.ruled); sent = sent_in (view_of p.ruled) } };

    ghost invariant = { λ p. (p.ruled.me.1 ≡ []) × (view_of p.ruled ≡ Putting (worker_in (view_of p.ruled)) (sent_in (view_of p.ruled))) };
}

/// The one right to get. Contracts see it as the identity of its queue, the number of workers, and what was got, in order: pairs of a
/// worker and its outcome.
#[derive(Drop)]
pub struct GetPass {
    pub(crate) ruled: RuledPass,
}

impl Model for GetPass {
    ghost Value = { GetPassState };

    ghost view = { λ p. record { queue = p.ruled.table_id; workers = workers_in (view_of p.ruled); got = got_in (view_of p.ruled) } };

    ghost invariant = { λ p. (p.ruled.me.1 ≡ []) × (view_of p.ruled ≡ Getting (workers_in (view_of p.ruled)) (got_in (view_of p.ruled)) []) };
}
