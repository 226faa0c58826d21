//! What the gate observes: each job once, before and after it, and that an outcome is sent only once there is room for it.
use super::{Counting, assert_lines_answered, comes_to, same_lines, solve_into};
use crate::Gate;
use crate::limits::QUEUE_CAPACITY;
use crate::tests::{assert_each, counters};
use std::io::Write;
use std::sync::atomic::Ordering::SeqCst;
use std::sync::atomic::{AtomicBool, AtomicU32};
use std::{hint, io};

/// Counts the calls for each job: there is one before it, and then one after it.
#[derive(Drop)]
struct EachJob {
    calls: Vec<AtomicU32>,
    out_of_turn: AtomicBool,
}

impl EachJob {
    // Counts a call for the job, before which there must be `earlier` calls.
    fn count(&self, job: u32, earlier: u32) {
        let is_next = match self.calls.get(job as usize) {
            Some(calls) => calls.fetch_add(1, SeqCst) == earlier,
            None => false,
        };
        if !is_next {
            self.out_of_turn.store(true, SeqCst);
        }
    }
}

impl Gate for EachJob {
    fn before(&self, job: u32) {
        self.count(job, 0);
    }

    fn after(&self, job: u32) {
        self.count(job, 1);
    }
}

// The number of jobs: enough for numbers of one byte, two and three.
const MANY: u32 = 65_600;

#[test]
fn the_gate_observes_each_job_once(rt: HostRuntime) {
    let gate = EachJob {
        calls: counters(&rt, MANY),
        out_of_turn: AtomicBool::new(false),
    };
    assert_lines_answered(&rt, MANY, 2, &gate);
    assert!(rt; !gate.out_of_turn.load(SeqCst));
    assert_each(&rt, gate.calls.as_slice(), 2);
}

/// The number of outcomes that are got, or wait in the queue, while the first line is written.
pub(super) const ROOM: u32 = QUEUE_CAPACITY + 1;

// How many turns the test waits for a job to be sent though there is no room.
const A_WHILE: u32 = 1_000_000;

/// Waits until this many jobs have begun, and a while longer.
pub(super) fn wait_for_begun(gate: &Counting, jobs: u32) {
    let _ = comes_to(&gate.begun, jobs);
    for _ in 0..A_WHILE {
        hint::spin_loop();
    }
}

/// Takes its first bytes only once a job has begun whose outcome finds no room, and a while later. It stores how many jobs were
/// sent by then.
#[derive(Drop)]
struct Slow<'a> {
    gate: &'a Counting,
    sent: Option<u32>,
}

impl Write for Slow<'_> {
    fn write(&mut self, buf: &[u8]) -> io::Result<usize> {
        if self.sent.is_none() {
            wait_for_begun(self.gate, ROOM + 1);
            self.sent = Some(self.gate.sent.load(SeqCst));
        }
        Ok(buf.len())
    }

    fn flush(&mut self) -> io::Result<()> {
        Ok(())
    }
}

#[test]
fn an_outcome_without_room_is_not_sent(rt: HostRuntime) {
    let files = same_lines(&rt, 300);
    let gate = Counting::new();
    let slow = Slow {
        gate: &gate,
        sent: None,
    };
    let (tally, slow) = solve_into(&rt, &files, 1, 16, &gate, slow);
    assert!(rt;
        tally.is_ok() && slow.sent == Some(ROOM),
        "{tally:?} {:?}",
        slow.sent
    );
    assert!(rt; gate.sent.load(SeqCst) == 300);
}
