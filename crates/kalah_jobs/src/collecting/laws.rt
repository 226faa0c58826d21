//! Laws of the collector and of the jobs of a batch, each on a function of its own.
ghost use Rattle.kalah_jobs.specs.Collecting.{Refusals.{AnswersInOneWay}, CollectorLaw.{KeepsItsLaw}, AnyOrder.{GetsEachJobOnce, AcceptsEachJob, MakesEveryLineReady}};

/// No offer that is wanted meets a refusal, and none meets two: so each is answered in one way only.
#[tactic(auto, using(crate::proofs::CollectingLemmas::answers_in_one_way))]
pub fn answers_in_one_way()
    ensures { AnswersInOneWay }
{}

/// After any list of offers and takes, what has arrived, how far each file has come and what was taken are as the list determines.
#[tactic(auto, using(crate::proofs::CollectingLemmas::keeps_its_law))]
pub fn keeps_its_law()
    ensures { KeepsItsLaw }
{}

/// If each job was drawn once and each worker sent the outcomes of its row, then once as many outcomes are received as there are jobs,
/// each job's is received once.
pub fn gets_each_job_once()
    ensures { GetsEachJobOnce }
{}

/// If each job is offered once, in any order, all offers are accepted, and in the end every line is ready.
#[tactic(auto, using(crate::proofs::CollectingLemmas::accepts_each_job, crate::proofs::CollectingLemmas::makes_every_line_ready))]
pub fn accepts_each_job_once()
    ensures accepted { AcceptsEachJob }
    ensures ready { MakesEveryLineReady }
{}
