//! `kalah solve FILE..`, `kalah values FILE..` and `kalah steps FILE..`.
ghost use Rattle.std.specs.{Prelude.{◌≡◌, ◌↔◌, IfOk, IsErrOf, false, map, true}, List.{list_any}};
ghost use Rattle.kalah_cli.specs.{Exit.Ends.{exit_status_of}, Arguments.Request.{AreFilesInRange}, Commands.Files.{AnswersFiles, has_line_feed}, System.Sources.{AreFilesOf}};

use crate::arguments::request::FilesRequest;
use crate::exit::failure::Failure;
use crate::exit::status::ExitStatus;
use crate::exit::tips::advise_on_files;
use crate::system::messages::Messages;
use crate::system::progress::Progress;
use crate::system::read_files::read_files;
use crate::system::sources::Sources;
use crate::system::terminal::Terminal;
use kalah_jobs::{FileText, Sink};
use kalah_run::{BatchRequest, OnFailedWrite, OpenGate, answer_batch};
use std::alloc::Global;
use std::io::Write;
use std::rt::Clock;
use std::sync::Wait;
use std::thread::Threads;

// Returns whether one of the names has a line feed in it, so that its answers could be taken for more than one line.
fn any_has_line_feed(names: &[&str]) -> bool
    ensures { result ≡ list_any has_line_feed (map (λ name. name.now) names.now) }
{
    for name in names {
        if name.as_bytes().contains(&b'\n') {
            return true;
        }
    }
    false
}

// Returns the files of these names, each read whole. Fails with `LineFeed` exactly if one of the names has a line feed in it.
fn read_named<'a, R: Sources>(
    rt: &R,
    alloc: Global,
    names: &[&'a str],
) -> Result<Vec<FileText>, Failure<'a>>
    ensures files { IfOk result (λ files. AreFilesOf (R.may_give rt.now) (map (λ name. name.now) names.now) files.items) }
    ensures line_feed { IsErrOf result Failure.LineFeed ↔ list_any has_line_feed (map (λ name. name.now) names.now) ≡ true }
{
    if any_has_line_feed(names) {
        return Err(Failure::LineFeed);
    }
    read_files(rt, alloc, names)
}

/// Answers what is asked of each line of the named files, and shows progress if that is asked for.
///
/// Returns `Clean` if each line was read, and `LineFaults` if one was not.
pub(crate) fn run_files<
    'a,
    R: Sources + Clock + Terminal + Threads + Wait + Sync,
    O: Sink,
    E: Write,
>(
    rt: &R,
    alloc: Global,
    request: &FilesRequest<'a>,
    out: &mut O,
    messages: &mut Messages<E>,
) -> Result<ExitStatus, Failure<'a>>
    requires limits { AreFilesInRange request.now }
    requires not_failed { (O.state out.old).has_failed ≡ false }
    ensures { AnswersFiles O.state out.old out.new (exit_status_of result) (R.may_give rt.now) request.now.question
        (map (λ name. name.now) request.now.names.items) }
{
    // This is `?`, written out: a `?` on a result of a large struct is expensive to check.
    let files = match read_named(rt, alloc, request.names.as_slice()) {
        Ok(files) => files,
        Err(failure) => return Err(failure),
    };
    let files = files.as_slice();
    let batch = BatchRequest {
        question: request.question,
        files,
        workers: request.workers,
        table: request.table_entries,
        on_failed_write: OnFailedWrite::Leave,
    };
    let mut progress = Progress::begin(rt, messages, files, request.progress);
    let answered = answer_batch(rt, alloc, &batch, &OpenGate, &mut progress, out);
    progress.end();
    let tally = match answered {
        Ok(tally) => tally,
        Err(fault) => return Err(Failure::Run(fault)),
    };
    let status = if tally.faults == 0 {
        ExitStatus::Clean
    } else {
        advise_on_files(files, messages);
        ExitStatus::LineFaults
    };
    Ok(status)
}
