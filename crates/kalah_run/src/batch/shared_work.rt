//! What all workers of a batch share.
ghost use Rattle.std.specs.Prelude.{◌≡◌};
ghost use Rattle.kalah_jobs.specs.Files.Jobs.{job_count};

use crate::desk::Desk;
use crate::queue::ResultsQueue;
use kalah_jobs::Jobs;

/// What all workers of a batch share: the desk at which they draw, the queue through which they send, the jobs and the gate.
#[derive(Drop)]
pub(crate) struct SharedWork<'a, G> {
    pub(crate) desk: Desk,
    pub(crate) queue: ResultsQueue,
    pub(crate) jobs: &'a Jobs,
    pub(crate) gate: &'a G,
    ghost each_job: { desk.total ≡ job_count jobs.now },
}
