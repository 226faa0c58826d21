//! The protocol of the results queue, over the outcomes that it holds and what each pass knows.
ghost use Rattle.std.specs.Prelude.{◌≡◌};
ghost use Rattle.kalah_run.specs.{Queue.Protocol.{IsLawful, opening_view, after_handing_out, pass_handed_out, after_put, IsGot, after_reclaiming, KnowsSent}, declared.queue.protocol.QueueView.TheVariants.{Reclaimed}};

use crossbeam_queue::protocol::{Join, Lesson, Outcome as StepOutcome, Protocol, Split};
use crossbeam_queue::{Pass, RuledArrayQueue};
use kalah_jobs::Outcome;
use std::collections::LinkedList;

/// What one pass of the queue knows. It is used in contracts only; no program makes one.
pub enum QueueView {
    /// The pass to get: how many passes to put were handed out, what was got, as pairs of a worker and its outcome, and what the workers
    /// of the reclaimed passes sent.
    Getting {
        workers: u32,
        got: LinkedList<(u32, Outcome)>,
        ended: LinkedList<LinkedList<Outcome>>,
    },
    /// The pass to put of one worker: the worker's number, and what it has sent.
    Putting {
        number: u32,
        sent: LinkedList<Outcome>,
    },
    /// A pass to put that was reclaimed.
    Reclaimed,
}

/// The protocol, between any two steps and for each worker: what was got of it, followed by what the queue holds of it, is what it has
/// sent, in its order.
pub struct QueueProtocol;

impl Protocol<Outcome, QueueView> for QueueProtocol {
    ghost holds = { IsLawful };

    ghost first = { opening_view };
}

/// The pass of the next worker is handed out.
pub struct HandOut;

impl Split<QueueView> for HandOut {
    ghost left = { after_handing_out };

    ghost right = { pass_handed_out };
}

/// A worker puts an outcome.
pub struct PutOutcome;

impl StepOutcome<Outcome, QueueView> for PutOutcome {
    ghost then = { λ before outcome after. after ≡ after_put before outcome };
}

/// The oldest outcome is got.
pub struct GetOutcome;

impl StepOutcome<Outcome, QueueView> for GetOutcome {
    ghost then = { IsGot };
}

/// A pass to put is reclaimed, and what its worker has sent is known.
pub struct Reclaim;

impl Join<QueueView> for Reclaim {
    ghost both = { after_reclaiming };

    ghost spent = { Reclaimed };
}

/// What was got, followed by what the queue holds, is all that the workers whose passes were reclaimed have sent.
pub struct LearnSent;

impl Lesson<Outcome, QueueView> for LearnSent {
    ghost fact = { KnowsSent };
}

pub(crate) type RuledQueue = RuledArrayQueue<Outcome, QueueView, QueueProtocol>;

pub(crate) type RuledPass = Pass<Outcome, QueueView>;
