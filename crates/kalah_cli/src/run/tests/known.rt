//! Runs over files and a standard input that are known, so that a contract sees them.
ghost use Rattle.std.specs.Prelude.{◌<◌, vec_len};
ghost use Rattle.kalah_cli.specs.{KnownRuns.{AnswersWhatIsKnown}, Arguments.Request.{texts_of}, System.Sources.{known_bytes}};

use super::{arguments_of, run_words};
use crate::exit::status::ExitStatus;
use crate::exit::status::ExitStatus::{Clean, Failed, LineFaults};
use crate::system::sources::Sources;
use crate::system::terminal::Terminal;
use kalah_jobs::{FileText, Stream};
use std::alloc::Global;
use std::io::ErrorKind;
use std::process::Abort;
use std::rt::Clock;
use std::sync::Wait;
use std::thread::Threads;
use std::time::Duration;
use std::{io, str};

/// A runtime with this disk and this standard input.
#[derive(Drop)]
struct Known<'a, R> {
    rt: &'a R,
    disk: &'a [FileText],
    input: &'a [u8],
}

impl<R: Threads> Threads for Known<'_, R> {}

impl<R: Wait> Wait for Known<'_, R> {}

impl<R: Clock> Clock for Known<'_, R> {
    fn monotonic(&self) -> io::Result<Duration> {
        self.rt.monotonic()
    }

    fn since_1970(&self) -> io::Result<Duration> {
        self.rt.since_1970()
    }
}

impl<R> Terminal for Known<'_, R> {
    fn stdin_is_terminal(&self) -> bool {
        false
    }

    fn stdout_is_terminal(&self) -> bool {
        false
    }

    fn stderr_is_terminal(&self) -> bool {
        false
    }
}

impl<'a, R> Sources for Known<'a, R> {
    type File = &'a [u8];

    type Standard = &'a [u8];

    ghost may_give = { λ known. known_bytes known.disk.now known.input.now };

    fn open(&self, name: &str) -> io::Result<&'a [u8]> {
        match self.disk.iter().find(|file| file.name.as_str() == name) {
            Some(file) => Ok(file.bytes.as_slice()),
            None => Err(io::Error::from(ErrorKind::NotFound)),
        }
    }

    fn standard_input(&self) -> &'a [u8] {
        self.input
    }
}

// Returns the status and the output of a run over this disk and this standard input. Unless it failed, both are pinned.
fn run_over<R: Clock + Threads + Wait + Sync>(
    rt: &R,
    alloc: Global,
    disk: &[FileText],
    input: &[u8],
    arguments: Vec<String>,
) -> (ExitStatus, Vec<u8>)
    requires { 0 < vec_len arguments }
    ensures { AnswersWhatIsKnown result.0 result.1.items disk.now input.now (texts_of arguments.items) }
{
    let known = Known { rt, disk, input };
    let mut out = Stream::new(Vec::new(alloc));
    let mut err = Vec::<u8>::new(alloc);
    let status = run_words(&known, alloc, arguments, &mut out, &mut err);
    (status, out.into_inner())
}

// A file of this name and these bytes.
fn file(rt: &(impl Abort + AllocGlobal), name: &str, bytes: &[u8]) -> FileText {
    FileText {
        name: String::from_str(rt.alloc(), name).expect(rt, "no memory"),
        bytes: bytes.to_vec(rt.alloc()).expect(rt, "no memory"),
    }
}

const RUNS: &[(&[&str], ExitStatus, &str)] = &[
    (
        &["solve", "a"],
        LineFaults,
        "a:1 2 house 2\na:2 fault shape\n",
    ),
    (&["values", "b", "b"], Clean, "b:1 1:0\nb:1 1:0\n"),
    (
        &["solve", "b", "a"],
        LineFaults,
        "b:1 0 house 1\na:1 2 house 2\na:2 fault shape\n",
    ),
    (&["solve", "a", "c"], Failed, ""),
    (&["ask"], LineFaults, "6 house 1\nfault empty\n"),
];

#[test]
fn what_is_known_is_answered(rt: HostRuntime) {
    let disk = [
        file(&rt, "a", b"1,1/0 1,1/0\n1/0"),
        file(&rt, "b", b"1/0 1/0\n"),
    ];
    for (arguments, status, want) in RUNS {
        let taken = arguments_of(&rt, *arguments);
        let (ended, out) = run_over(&rt, rt.alloc(), &disk, b"3/0 3/0\n\n", taken);
        let written = str::from_utf8(out.as_slice()).unwrap_or("no text");
        assert!(rt;
            (ended, written) == (*status, *want),
            "{arguments:?}: {written:?}"
        );
    }
}
