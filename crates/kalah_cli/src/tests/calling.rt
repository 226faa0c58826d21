//! The crates, called as docs/CALLING.md shows it.
#![tactic(auto)]

ghost use Rattle.std.specs.Prelude.{◌≡◌, ◌↔◌, ◌++◌, ◌∷◌, [], IfOk, IfSome, IsErr, OnOk, codes, count_by, false, int_lt, pos, true};
ghost use Rattle.std.specs.Io.KnownBytes.{Appends};
ghost use Rattle.kalah_rules.specs.Play.{step_of};
ghost use Rattle.kalah_rules.specs.Position.{is_over};
ghost use Rattle.kalah_jobs.specs.Files.Entry.{entry_of};
ghost use Rattle.kalah_jobs.specs.Files.Lines.{line_feed};
ghost use Rattle.kalah_jobs.specs.Writing.Answer.{answer_line, answer_of};
ghost use Rattle.kalah_jobs.specs.Writing.Output.{tally_of};
ghost use Rattle.kalah_solve.specs.Solver.Worth.{worth};

use kalah_jobs::{Entry, FileText, Outcome, Sink, Stream, Taken, read_line, write_answer};
use kalah_rules::{Board, Rule, Step};
use kalah_run::{OpenGate, RunFault, Tally, solve_batch};
use kalah_solve::{MoveValues, Solver, Table, Verdict};
use std::alloc::{AllocError, Global};
use std::io;
use std::process::ExitCode;
use std::sync::Wait;
use std::test::Fail;
use std::thread::Threads;

// Two houses a side, a seed in each, and empty stores.
fn two_houses() -> Option<Board> {
    let ones = [1, 1, 0, 0, 0, 0];
    Board::new(2, ones, 0, ones, 0, Rule::Classic)
}

// Returns what the move of a house leads to, if it may be moved.
fn step(board: &Board, house: u8) -> Option<Step>
    ensures { IfSome result (λ s. s ≡ step_of board.now house) }
{
    if !board.is_legal(house) {
        return None;
    }
    Some(board.apply(house))
}

#[test]
fn a_caller_moves(rt: HostRuntime) -> Result<(), Fail> {
    let board = two_houses().ok_or("beyond the limits")?;
    assert!(rt; board.legal().len() == 2);
    assert!(rt; matches!(step(&board, 2), Some(Step::Again(_))));
    assert!(rt; step(&board, 3).is_none());
    Ok(())
}

// Returns the margin of best play. The game isn't over.
fn margin(solver: &mut Solver, board: &Board) -> i32
    requires { is_over board.now ≡ false }
    ensures { result ≡ worth board.now }
{
    match solver.solve(board) {
        Verdict::Best { margin, .. } => margin,
        Verdict::Over { margin } => margin,
    }
}

// Returns how many moves lose: those with a margin below 0.
fn losing_moves(values: &MoveValues) -> u8
    ensures { result ≡ count_by (λ v. int_lt v.value (pos 0)) values.now }
{
    let mut count = 0;
    for i in 0..values.len() {
        if values.get(i).value < 0 {
            count += 1;
        }
    }
    count
}

#[test]
fn a_caller_solves(rt: HostRuntime) -> Result<(), Fail> {
    let board = two_houses().ok_or("beyond the limits")?;
    let mut solver = Solver::new(Table::new(rt.alloc(), 4096)?);
    assert!(rt; !board.is_over() && margin(&mut solver, &board) == 2);
    assert!(rt; losing_moves(&solver.values(&board)) == 1);
    Ok(())
}

// Writes the answer to a line, as a batch does for the first line of a file `line`.
#[tactic(auto, unfolding(kalah_jobs::specs::Files::Entry::entry_for))]
fn write_answer_to<W: Sink>(line: &[u8], solver: &mut Solver, out: &mut W) -> io::Result<()>
    requires { (W.state out.old).has_failed ≡ false }
    ensures fails { IsErr result ↔ ((W.state out.new).has_failed ≡ true) }
    ensures adds { OnOk result (Appends (W.state out.old).written (W.state out.new).written
        (answer_line (codes "line") (record { line = 0; answer = answer_of (entry_of line.now) }) ++ line_feed ∷ [])) }
{
    let entry = match read_line(line) {
        Ok(board) => Entry::Position(board),
        Err(fault) => Entry::Bad(fault),
    };
    let outcome = Outcome::of(0, 0, entry, solver);
    let taken = Taken {
        line: outcome.line(),
        answer: outcome.answer(),
    };
    write_answer(out, "line", &taken)
}

fn main(rt: HostRuntime) -> ExitCode {
    let Ok(table) = Table::new(rt.alloc(), 65536) else {
        return ExitCode::FAILURE;
    };
    let mut out = Stream::new(io::writer(&rt));
    match write_answer_to(b"1,1/0 1,1/0", &mut Solver::new(table), &mut out) {
        Ok(()) => ExitCode::SUCCESS,
        Err(_) => ExitCode::FAILURE,
    }
}

#[test]
fn a_caller_answers_a_line(rt: HostRuntime) -> Result<(), Fail> {
    let mut solver = Solver::new(Table::new(rt.alloc(), 4096)?);
    let mut out = Stream::new(Vec::new(rt.alloc()));
    write_answer_to(b"1,1/0 1,1/0", &mut solver, &mut out)?;
    write_answer_to(b"1/0", &mut solver, &mut out)?;
    assert!(rt; out.into_inner().as_slice() == "line:1 2 house 2\nline:1 fault shape\n".as_bytes());
    Ok(())
}

// Returns one file, `a`: a position, and a line that isn't one.
fn one_file(alloc: Global) -> Result<Vec<FileText>, AllocError> {
    let mut files = Vec::new(alloc);
    files.push(FileText {
        name: String::from_str(alloc, "a")?,
        bytes: b"1,1/0 1,1/0\n1/0".to_vec(alloc)?,
    })?;
    Ok(files)
}

// Returns the answers to files, and their tally, by two workers.
fn answers<R: Threads + Wait + Sync>(
    rt: &R,
    alloc: Global,
    files: &[FileText],
) -> Result<(Vec<u8>, Tally), RunFault>
    ensures { IfOk result (λ r. r.1 ≡ tally_of files.now) }
{
    let mut out = Stream::new(Vec::new(alloc));
    let tally = solve_batch(rt, alloc, files, 2, 4096, &OpenGate, &mut out)?;
    Ok((out.into_inner(), tally))
}

#[test]
fn a_caller_answers_files(rt: HostRuntime) -> Result<(), Fail> {
    let files = one_file(rt.alloc())?;
    let Ok((bytes, tally)) = answers(&rt, rt.alloc(), files.as_slice()) else {
        return Err(Fail::from("no answer"));
    };
    assert!(rt; bytes.as_slice() == "a:1 2 house 2\na:2 fault shape\n".as_bytes());
    assert!(rt; tally.lines == 2 && tally.faults == 1);
    Ok(())
}
