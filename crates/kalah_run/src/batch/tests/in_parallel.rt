//! Batches in which workers wait for one another: jobs are solved in parallel, drawn by any free worker, and written
//! while later ones are under way. The watch learns of an answer once it is written.
use super::{
    ONE_AND_TWO, answer_into, assert_lines_answered, assert_solved, comes_to, file_of, request_of,
    tally_of,
};
use crate::{Gate, OnFailedWrite, Watch};
use kalah_jobs::{FileText, Question};
use std::io;
use std::io::Write;
use std::process::Abort;
use std::sync::atomic::Ordering::SeqCst;
use std::sync::atomic::{AtomicBool, AtomicU32};

/// Counts events, for which threads wait, and whether one gave up waiting.
#[derive(Drop)]
struct Events {
    count: AtomicU32,
    gave_up: AtomicBool,
}

impl Events {
    fn none() -> Events {
        Events {
            count: AtomicU32::new(0),
            gave_up: AtomicBool::new(false),
        }
    }

    // Waits until there were `count` events.
    fn wait_for(&self, count: u32) {
        if !comes_to(&self.count, count) {
            self.gave_up.store(true, SeqCst);
        }
    }

    // Adds an event.
    fn add(&self) {
        self.count.fetch_add(1, SeqCst);
    }

    // No thread gave up waiting.
    fn nobody_gave_up(&self) -> bool {
        !self.gave_up.load(SeqCst)
    }
}

/// The job `last` begins only once `others` jobs are done.
#[derive(Drop)]
struct OneLast {
    last: u32,
    others: u32,
    done: Events,
}

impl Gate for OneLast {
    fn before(&self, job: u32) {
        if job == self.last {
            self.done.wait_for(self.others);
        }
    }

    fn after(&self, _job: u32) {
        self.done.add();
    }
}

const TWO: &str = "n:1 0 house 1\nn:2 -2 house 1\n";

// A file of two lines whose answers are `TWO`.
fn two_lines<R: Abort + AllocGlobal>(rt: &R) -> [FileText; 1] {
    [file_of(rt.alloc(), "n", ONE_AND_TWO).expect(rt, "no memory")]
}

#[test]
fn a_later_job_is_done_while_an_earlier_one_waits(rt: HostRuntime) {
    let gate = OneLast {
        last: 0,
        others: 1,
        done: Events::none(),
    };
    let files = two_lines(&rt);
    assert_solved(&rt, &files, 2, 16, &gate, TWO, tally_of(2));
    assert!(rt; gate.done.nobody_gave_up());
}

#[test]
fn a_free_worker_takes_whatever_is_left(rt: HostRuntime) {
    for last in 0..4u32 {
        let gate = OneLast {
            last,
            others: 3,
            done: Events::none(),
        };
        assert_lines_answered(&rt, 4, 2, &gate);
        assert!(rt; gate.done.nobody_gave_up(), "{last}");
    }
}

/// Each of `jobs` jobs begins only once all are drawn.
#[derive(Drop)]
struct AllDrawn {
    jobs: u32,
    drawn: Events,
}

impl Gate for AllDrawn {
    fn before(&self, _job: u32) {
        self.drawn.add();
        self.drawn.wait_for(self.jobs);
    }

    fn after(&self, _job: u32) {}
}

#[test]
fn as_many_jobs_are_under_way_at_once_as_there_are_workers(rt: HostRuntime) {
    for jobs in [2, 64] {
        let drawn = Events::none();
        let gate = AllDrawn { jobs, drawn };
        assert_lines_answered(&rt, jobs, jobs, &gate);
        assert!(rt; gate.drawn.nobody_gave_up(), "{jobs}");
    }
}

/// The second job begins only once the first line is written.
#[derive(Drop)]
struct WrittenFirst<'a> {
    written: &'a Events,
}

impl Gate for WrittenFirst<'_> {
    fn before(&self, job: u32) {
        if job == 1 {
            self.written.wait_for(1);
        }
    }

    fn after(&self, _job: u32) {}
}

/// Announces each call from that on which ends its first line.
#[derive(Drop)]
struct Telling<'a> {
    bytes: Vec<u8>,
    written: &'a Events,
}

impl Write for Telling<'_> {
    fn write(&mut self, buf: &[u8]) -> io::Result<usize> {
        let taken = self.bytes.write(buf)?;
        if self.bytes.contains(&b'\n') {
            self.written.add();
        }
        Ok(taken)
    }

    fn flush(&mut self) -> io::Result<()> {
        Ok(())
    }
}

/// Counts the outcomes that are accepted, if as many lines are written then.
#[derive(Drop)]
struct Following<'a> {
    written: &'a Events,
    accepted: u32,
}

impl Watch for Following<'_> {
    fn on_accepted(&mut self) {
        if self.written.count.load(SeqCst) > self.accepted {
            self.accepted = self.accepted.saturating_add(1);
        }
    }

    fn on_waiting(&mut self) {}
}

#[test]
fn a_line_is_written_before_the_next_job_begins(rt: HostRuntime) {
    let files = two_lines(&rt);
    let written = Events::none();
    let gate = WrittenFirst { written: &written };
    let telling = Telling {
        bytes: Vec::new(rt.alloc()),
        written: &written,
    };
    let request = request_of(Question::BestMove, &files, 1, OnFailedWrite::Solve);
    let mut watch = Following {
        written: &written,
        accepted: 0,
    };
    let (tally, out) = answer_into(&rt, &request, &gate, &mut watch, telling);
    assert!(rt; tally == Ok(tally_of(2)) && watch.accepted == 2);
    assert!(rt; out.bytes.as_slice() == TWO.as_bytes());
    assert!(rt; written.nobody_gave_up());
}
