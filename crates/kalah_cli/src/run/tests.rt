//! Runs of the program on arguments: the exit status, and what both outputs get.
ghost use Rattle.std.specs.Prelude.{◌<◌, vec_len};

mod known;

use super::run_words;
use crate::exit::status::ExitStatus;
use crate::exit::status::ExitStatus::{Clean, Failed, LineFaults};
use crate::system::sources::Sources;
use crate::system::terminal::Terminal;
use kalah_jobs::{Sink, Stream};
use std::alloc::Global;
use std::io::{ErrorKind, Write};
use std::process::Abort;
use std::rt::{Clock, Files};
use std::sync::Wait;
use std::thread::Threads;
use std::{fs, io, str};

/// Returns an error at its `fails_at`th call, counted from 1, and at each later one.
#[derive(Drop)]
struct Failing {
    calls: u32,
    fails_at: u32,
}

impl Write for Failing {
    fn write(&mut self, buf: &[u8]) -> io::Result<usize> {
        self.flush()?;
        Ok(buf.len())
    }

    fn flush(&mut self) -> io::Result<()> {
        self.calls = self.calls.saturating_add(1);
        if self.calls >= self.fails_at {
            return Err(io::Error::from(ErrorKind::BrokenPipe));
        }
        Ok(())
    }
}

// The arguments of the command line; the first is the program's name.
fn arguments_of(rt: &(impl Abort + AllocGlobal), texts: &[&str]) -> Vec<String>
    ensures { 0 < vec_len result }
{
    let mut arguments = Vec::new(rt.alloc());
    for text in texts {
        let argument = String::from_str(rt.alloc(), *text).expect(rt, "no memory");
        arguments.push(argument).expect(rt, "no memory");
    }
    let name = String::from_str(rt.alloc(), "kalah").expect(rt, "no memory");
    arguments.insert(0, name).expect(rt, "no memory");
    arguments
}

fn write_file(rt: &(impl Abort + Files), name: &str, bytes: &[u8]) {
    fs::write(rt, name, bytes).expect(rt, name);
}

/// What the program writes for the arguments after its name, and its status.
#[derive(Drop)]
struct Run {
    status: ExitStatus,
    out: Vec<u8>,
    err: Vec<u8>,
}

fn run_on(
    rt: &(impl Abort + AllocGlobal + Sources + Clock + Terminal + Threads + Wait + Sync),
    texts: &[&str],
) -> Run {
    let arguments = arguments_of(rt, texts);
    let mut out = Stream::new(Vec::<u8>::new(rt.alloc()));
    let mut err = Vec::<u8>::new(rt.alloc());
    let status = run_words(rt, rt.alloc(), arguments, &mut out, &mut err);
    Run {
        status,
        out: out.into_inner(),
        err,
    }
}

// Arguments, the status with which a run on them ends, and what both outputs get.
type Case = (
    &'static [&'static str],
    ExitStatus,
    &'static str,
    &'static str,
);

fn assert_runs(
    rt: &(impl Abort + AllocGlobal + Sources + Clock + Terminal + Threads + Wait + Sync),
    cases: &[Case],
) {
    for (arguments, status, out, err) in cases {
        let run = run_on(rt, *arguments);
        let written = str::from_utf8(run.out.as_slice()).unwrap_or("no text");
        let said = str::from_utf8(run.err.as_slice()).unwrap_or("no text");
        assert!(rt;
            (run.status, written, said) == (*status, *out, *err),
            "{arguments:?}: {written:?} {said:?}"
        );
    }
}

const PRINTED: &[Case] = &[
    (
        &["moves", "1,1/0 1,1/0"],
        Clean,
        "1 1,1/0 0,2/0 turn\n2 1,0/1 1,1/0 again\n",
        "",
    ),
    (
        &["play", "--values", "--first", "1", "1,1/0 1,1/0"],
        Clean,
        "1 1,1/0 0,2/0 turn 2\n1 0,2/0 0,2/0 turn 2\n2 0,0/1 0,0/3 over -2\n",
        "",
    ),
    (
        &["show", "--lines", "1,1/0 1,1/0"],
        Clean,
        "       1   1\n   0           0\n       1   1\n      -2   2\n2  2  2 1\n1  -2  1 1 2\n",
        "",
    ),
    (
        &["count", "3", "1,0,0,1/0 0,1,0,1/0 e"],
        Clean,
        "1 2\n4 0\ntotal 2\n",
        "",
    ),
    (&["--version"], Clean, "kalah 1.4.0\n", ""),
];

#[test]
fn prints_what_is_asked(rt: HostRuntime) {
    assert_runs(&rt, PRINTED);
}

// A line that can't be read is answered by its fault.
const UNREAD: &[Case] = &[
    (&["moves", "1/0"], LineFaults, "", "fault shape\n"),
    (
        &["play", "--first=3", "16/0 16/0"],
        LineFaults,
        "",
        "fault seeds\n",
    ),
];

#[test]
fn a_line_that_is_not_read_is_answered_by_its_fault(rt: HostRuntime) {
    assert_runs(&rt, UNREAD);
}

const MISTAKES: &[&[&str]] = &[&[], &["stop"], &["solve", "--workers", "65", "a.txt"]];

#[test]
fn mistakes_in_the_arguments(rt: HostRuntime) {
    for arguments in MISTAKES {
        let run = run_on(&rt, *arguments);
        let is_usage = run.status == Failed
            && run.out.is_empty()
            && run.err.starts_with(b"error: ");
        assert!(rt; is_usage, "{arguments:?}");
    }
}

// The files that are read have any lines, and the last may lack its line feed. A name may be given again.
const BATCH: &[Case] = &[(
    &["solve", "--workers=2", "a.txt", "b.txt", "c.txt", "b.txt"],
    LineFaults,
    "\
b.txt:1 0 house 1
b.txt:2 -2 house 1
c.txt:1 6 house 1
c.txt:2 fault empty
c.txt:3 fault shape
b.txt:1 0 house 1
b.txt:2 -2 house 1
",
    "",
)];

#[test]
fn answers_each_line_of_each_file(rt: HostRuntime) {
    write_file(&rt, "a.txt", b"");
    write_file(&rt, "b.txt", b"1/0 1/0\n2/0 2/0");
    write_file(&rt, "c.txt", b"3/0 3/0\r\n\r\n01/0 1/0\r\n");
    assert_runs(&rt, BATCH);
}

// A file that can't be read ends the run.
const NOT_READ: &[Case] = &[
    (
        &["solve", "one.txt", "none.txt", "/"],
        Failed,
        "",
        "kalah: cannot read none.txt\n",
    ),
    (&["solve", "/"], Failed, "", "kalah: cannot read /\n"),
    (
        &["solve", "none.txt", "x\ny"],
        Failed,
        "",
        "kalah: line feed in a file name\n",
    ),
    (
        &["solve", "odd\0name"],
        Failed,
        "",
        "kalah: cannot read odd\0name\n",
    ),
];

#[test]
fn a_file_that_is_not_read(rt: HostRuntime) {
    write_file(&rt, "one.txt", b"1/0 1/0\n");
    assert_runs(&rt, NOT_READ);
}

// If the output fails at its call number `k`, and at each later one, the run ends there. It makes `calls` calls if none fails.
fn assert_stops_at(
    rt: &(impl Abort + AllocGlobal + Sources + Clock + Terminal + Threads + Wait + Sync),
    texts: &[&str],
    calls: u32,
    k: u32,
) {
    let arguments = arguments_of(rt, texts);
    let mut out = Stream::new(Failing {
        calls: 0,
        fails_at: k,
    });
    let mut err = Vec::<u8>::new(rt.alloc());
    let status = run_words(rt, rt.alloc(), arguments, &mut out, &mut err);
    let ends = if k <= calls {
        (Failed, true, "kalah: write failed\n")
    } else {
        (Clean, false, "")
    };
    let has_failed = out.failed();
    let said = str::from_utf8(err.as_slice()).unwrap_or("no text");
    assert!(rt; (status, has_failed, said) == ends, "{texts:?} at {k}");
    assert!(rt; out.into_inner().calls == k.min(calls), "{texts:?} at {k}");
}

// Arguments, and how many calls the run makes of its output.
const CALLS: &[(&[&str], u32)] = &[
    // The text is written in one call, and a flush ends it.
    (&["--help"], 2),
    (&["--version"], 2),
    (&["-V"], 2),
    // Each move is written in one call, and a flush ends them.
    (&["moves", "1,1/0 1,1/0"], 3),
    // The game is written in two moves, with a flush before each search and at the end.
    (&["play", "1,1/0 1,1/0"], 5),
    (&["play", "--first=2", "1,1/0 1,1/0"], 4),
    // The picture is written, flushed before the search, and again after the values.
    (&["show", "1,1/0 1,1/0"], 4),
    (&["show", "--plain", "1,1/0 1,1/0"], 2),
    // Each line is flushed before the next house is counted.
    (&["count", "2", "1,1/0 1,1/0"], 6),
    (&["count", "0", "1,1/0 1,1/0"], 2),
    // Each line is written in one call, and a flush ends them.
    (&["solve", "stopped.txt"], 3),
    (&["values", "stopped.txt"], 3),
    (&["steps", "stopped.txt"], 4),
];

#[test]
fn stops_at_a_failed_write(rt: HostRuntime) {
    write_file(&rt, "stopped.txt", b"1,1/0 1,1/0\n2/0 2/0");
    for (arguments, calls) in CALLS {
        for k in 1..8u32 {
            assert_stops_at(&rt, *arguments, *calls, k);
        }
    }
}
