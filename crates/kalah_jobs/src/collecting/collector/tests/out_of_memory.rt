//! Jobs and their collector with each request for memory refused once.
use super::{one_house, trial_of};
use crate::tests::mark;
use crate::{Job, Jobs};
use kalah_rules::Rule::Classic;
use std::process::Abort;
use std::test::Fail;

// The jobs are the lines of the first file.
fn assert_jobs(rt: &impl Abort, jobs: &Jobs) {
    assert!(rt; jobs.files() == 2 && jobs.total() == 3);
    for seeds in [1, 2, 3u8] {
        let (file, line) = (0, u32::from(seeds) - 1);
        let entry = one_house(rt, seeds, Classic);
        assert!(rt; jobs.get(line) == Job { file, line, entry }, "{line}");
    }
}

// Once they are made, the jobs and the collector request no memory.
#[test]
fn jobs_and_their_collector(rt: HostRuntime) -> Result<(), Fail> {
    let mut trial = trial_of(&rt)?;
    mark(rt.alloc(), "before the calls without memory")?;
    assert_jobs(&rt, &trial.jobs);
    trial.assert_offers(&rt);
    mark(rt.alloc(), "after all")
}
