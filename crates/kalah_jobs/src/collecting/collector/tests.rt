//! Offers in each order, accepted and refused, and what is taken.
ghost use Rattle.kalah_jobs.specs.Collecting.CollectorState.{HasLinesOf};

mod out_of_memory;

use crate::{Answer, Collector, Entry, FileText, Jobs, JobsFault, Outcome, Refusal, Taken};
use Refusal::{Double, FileEnded, NoSuchFile, NoSuchLine, WrongPosition};
use kalah_rules::Board;
use kalah_rules::Rule::{self, Classic, EmptyCapture};
use kalah_solve::{Solver, Table};
use std::alloc::{AllocError, Global};
use std::process::Abort;

// The result of an offer.
type Answered = Result<u32, Refusal>;

/// A collector under test, with its jobs and a solver for the offers.
#[derive(Drop)]
struct Trial {
    jobs: Jobs,
    collector: Collector,
    solver: Solver,
    ghost counts: { HasLinesOf jobs collector },
}

impl Trial {
    // A collector for the jobs of two files, with no answer yet.
    fn new(rt: &(impl Abort + AllocGlobal)) -> Trial {
        trial_of(rt).expect(rt, "no memory")
    }

    // Offers a line with `seeds` seeds under a rule, and compares the answer.
    fn assert_offer(
        &mut self,
        rt: &impl Abort,
        (file, line): (u32, u32),
        (seeds, rule): (u8, Rule),
        answered: Answered,
    ) {
        let outcome = Outcome::of(file, line, one_house(rt, seeds, rule), &mut self.solver);
        let result = self.collector.offer(&self.jobs, outcome);
        assert!(rt;
            result == answered,
            "{file}, {line}, {seeds}, {rule:?}: {result:?}"
        );
    }

    // Whether this line of the first file is taken next, with this margin of best play.
    fn takes(&mut self, line: u32, margin: i32) -> bool {
        let answer = Answer::Best { margin, house: 1 };
        self.collector.take(0) == Some(Taken { line, answer })
    }

    // Whether no line of the file can be taken.
    fn takes_nothing(&mut self, file: u32) -> bool {
        self.collector.take(file).is_none()
    }

    // Takes the three lines of the first file, each once, with the margins of best play, and nothing else.
    fn assert_takes_all(&mut self, rt: &impl Abort) {
        assert!(rt; !self.collector.all_taken());
        assert!(rt; self.takes(0, 0) && self.takes(1, -2) && self.takes(2, 6));
        assert!(rt; self.takes_nothing(0) && self.takes_nothing(1) && self.takes_nothing(9));
        assert!(rt; self.collector.all_taken());
    }

    // The second file has ended. Makes each of the offers, after which all lines can be taken.
    fn assert_offers(&mut self, rt: &impl Abort) {
        assert!(rt;
            !self.collector.ended(0) && self.collector.ended(1) && !self.collector.ended(2)
        );
        for (place, position, answered) in OFFERS {
            self.assert_offer(rt, *place, *position, *answered);
        }
        self.assert_takes_all(rt);
    }
}

// A board of one house a side with `seeds` seeds in each, and empty stores.
fn one_house(rt: &impl Abort, seeds: u8, rule: Rule) -> Entry {
    let cells = [seeds, 0, 0, 0, 0, 0];
    let board = Board::new(1, cells, 0, cells, 0, rule);
    Entry::Position(board.expect(rt, "within the limits"))
}

// A file of three lines, with one, two and three seeds, and an empty file.
fn two_texts(alloc: Global) -> Result<Vec<FileText>, AllocError> {
    let mut files = Vec::new(alloc);
    files.push(FileText {
        name: "a".to_string(alloc)?,
        bytes: b"1/0 1/0\n2/0 2/0\n3/0 3/0".to_vec(alloc)?,
    })?;
    files.push(FileText {
        name: "b".to_string(alloc)?,
        bytes: Vec::new(alloc),
    })?;
    Ok(files)
}

fn jobs_of(rt: &(impl Abort + AllocGlobal)) -> Result<Jobs, JobsFault> {
    let files = match two_texts(rt.alloc()) {
        Ok(files) => files,
        Err(_) => two_texts(rt.alloc())?,
    };
    let jobs = Jobs::of_files(rt.alloc(), files.as_slice());
    if jobs.is_ok() {
        return jobs;
    }
    assert!(rt; jobs.err() == Some(JobsFault::OutOfMemory));
    Jobs::of_files(rt.alloc(), files.as_slice())
}

// A collector for the jobs of two files and a solver, each made at the second try if memory was refused.
fn trial_of(rt: &(impl Abort + AllocGlobal)) -> Result<Trial, JobsFault> {
    let jobs = jobs_of(rt)?;
    let table = match Table::new(rt.alloc(), 16) {
        Ok(table) => table,
        Err(_) => Table::new(rt.alloc(), 16)?,
    };
    let collector = match Collector::new(rt.alloc(), &jobs) {
        Ok(collector) => collector,
        Err(_) => Collector::new(rt.alloc(), &jobs)?,
    };
    Ok(Trial {
        jobs,
        collector,
        solver: Solver::new(table),
    })
}

// Offers of each kind: the file and the line, the seeds of the entry and its rule, and the answer.
const OFFERS: &[((u32, u32), (u8, Rule), Answered)] = &[
    ((0, 0), (1, EmptyCapture), Err(WrongPosition)),
    ((0, 2), (3, Classic), Ok(0)),
    ((0, 0), (1, Classic), Ok(1)),
    ((0, 0), (1, Classic), Err(Double)),
    ((0, 0), (2, Classic), Err(WrongPosition)),
    ((0, 3), (1, Classic), Err(NoSuchLine)),
    ((2, 0), (1, Classic), Err(NoSuchFile)),
    ((0, 1), (2, Classic), Ok(2)),
    ((0, 1), (2, Classic), Err(FileEnded)),
    ((0, 7), (1, Classic), Err(FileEnded)),
    ((1, 0), (1, Classic), Err(FileEnded)),
];

// The lines of the first file in each order, and how many become ready by each offer.
const ORDERS: &[[(u8, u32); 3]] = &[
    [(0, 1), (1, 1), (2, 1)],
    [(0, 1), (2, 0), (1, 2)],
    [(1, 0), (0, 2), (2, 1)],
    [(1, 0), (2, 0), (0, 3)],
    [(2, 0), (0, 1), (1, 2)],
    [(2, 0), (1, 0), (0, 3)],
];

#[test]
fn each_offer_has_its_answer(rt: HostRuntime) {
    Trial::new(&rt).assert_offers(&rt);
}

#[test]
fn lines_become_ready_in_order(rt: HostRuntime) {
    for offers in ORDERS {
        let mut trial = Trial::new(&rt);
        for (line, ready) in offers {
            trial.assert_offer(&rt, (0, u32::from(*line)), (*line + 1, Classic), Ok(*ready));
        }
    }
}

#[test]
fn refuses_a_line_that_was_taken(rt: HostRuntime) {
    let mut trial = Trial::new(&rt);
    trial.assert_offer(&rt, (0, 0), (1, Classic), Ok(1));
    assert!(rt; trial.takes(0, 0));
    trial.assert_offer(&rt, (0, 0), (1, Classic), Err(Double));
    assert!(rt; trial.takes_nothing(0));
}
