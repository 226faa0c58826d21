//! Laws, each on a function of its own: of the protocols under which threads draw and send in parallel, and of what a batch promises.
ghost use Rattle.kalah_run.specs.{Desk.Protocol.{DeskIsLawful}, Queue.Protocol.{QueueIsLawful}, Batch.Answering.{NoLineIsAnswered}};

use kalah_jobs::Sink;

/// A fact between any two steps of any threads at a desk. Each number below the count of those drawn stands in the row of one pass, and
/// there once. No other stands in any. The desk's one word is at most the total plus the number of passes.
pub fn desk_is_lawful()
    ensures { DeskIsLawful }
{}

/// A fact between any two steps of any threads at a results queue. One pass gets. Each outcome that was got or is inside is of one of the
/// workers. Of each worker these are what it sent, whole and in its order.
pub fn queue_is_lawful()
    ensures { QueueIsLawful }
{}

/// A batch whose files have no line writes nothing, and counts no line and no fault; or it fails with `TooManyFiles`, `OutOfMemory` or
/// `Write`. A law over what `answer_batch` and `solve_batch` promise.
pub fn no_line_is_answered<W: Sink>()
    ensures { NoLineIsAnswered W.state }
{}
