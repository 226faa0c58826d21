//! The program, run on its arguments.
ghost use Rattle.std.specs.Prelude.{◌≡◌, ◌≢◌, ◌<◌, false, true, vec_len};
ghost use Rattle.clap.specs.Values.{kind_of};
ghost use Rattle.kalah_cli.specs.{Commands.Printing.{IsPrinted}, Exit.Ends.{FailsOrFlushes, exit_status_of}, Arguments.Request.{IsInRange, task_of, texts_of}, Runs.{Does, EndsWithoutRequest, KeepsPromises}};

use crate::arguments::help::VERSION_LINE;
use crate::arguments::request::{Request, parse};
use crate::commands::ask::run_ask;
use crate::commands::files::run_files;
use crate::commands::line_command::run_line;
use crate::exit::failure::{Failure, report_end, status_of_sink};
use crate::exit::status::ExitStatus;
use crate::exit::tips::report_refused;
use crate::system::messages::Messages;
use crate::system::sources::Sources;
use crate::system::terminal::Terminal;
use clap::Error;
use clap::error::ErrorKind;
use kalah_jobs::{Sink, flush_unless_failed, write_unless_failed};
use std::alloc::Global;
use std::io::Write;
use std::rt::Clock;
use std::sync::Wait;
use std::thread::Threads;

// Writes the requested help or version, and flushes.
fn print_text<O: Sink>(text: &str, out: &mut O)
    ensures { IsPrinted O.state out.old out.new text.now }
{
    write_unless_failed(out, text.as_bytes());
    flush_unless_failed(out);
}

// Ends a run whose arguments make no request: help or the version goes to `out`, and a mistake in the arguments is reported.
fn end_without_request<'a, O: Sink, E: Write>(
    alloc: Global,
    arguments: &'a [String],
    error: &Error,
    out: &mut O,
    messages: &mut Messages<E>,
) -> Result<ExitStatus, Failure<'a>>
    requires { (O.state out.old).has_failed ≡ false }
    ensures no_request { EndsWithoutRequest O.state out.old out.new (exit_status_of result) (λ kind. kind_of error.now ≢ kind) }
    ensures ends { FailsOrFlushes O.state out.old out.new (exit_status_of result) }
    ensures all_flushed { exit_status_of result ≢ ExitStatus.Failed → (O.state out.new).is_flushed ≡ true }
{
    let Ok(text) = error.to_string(alloc) else {
        return Err(Failure::OUT_OF_MEMORY);
    };
    match error.kind() {
        ErrorKind::DisplayHelp => print_text(text.as_str(), out),
        ErrorKind::DisplayVersion => print_text(VERSION_LINE, out),
        ErrorKind::OutOfMemory => return Err(Failure::OUT_OF_MEMORY),
        _ => {
            report_refused(arguments, text.as_str(), messages);
            return Ok(ExitStatus::Failed);
        }
    }
    status_of_sink(out)
}

fn run_request<'a, R: Sources + Clock + Terminal + Threads + Wait + Sync, O: Sink, E: Write>(
    rt: &R,
    alloc: Global,
    request: &Request<'a>,
    out: &mut O,
    messages: &mut Messages<E>,
) -> Result<ExitStatus, Failure<'a>>
    requires range { IsInRange request.now }
    requires not_failed { (O.state out.old).has_failed ≡ false }
    ensures { Does O.state out.old out.new (exit_status_of result) (R.may_give rt.now) (task_of request.now) }
{
    match request {
        Request::Line { line, command } => run_line(alloc, line, command, out, messages),
        Request::Files(files) => run_files(rt, alloc, files, out, messages),
        Request::Ask(request) => run_ask(rt, alloc, *request, out, messages),
        Request::Conflict => Err(Failure::Conflict),
    }
}

/// Runs the program on its arguments, and returns its exit status. The first argument is always taken as the program's name. `SUBCOMMANDS`
/// says what each subcommand does.
///
/// Answers, help and the version go to `out`, and messages about failures and unread lines to `err`. A failing write to `err` changes
/// nothing.
pub fn run_words<R: Sources + Clock + Terminal + Threads + Wait + Sync, O: Sink, E: Write>(
    rt: &R,
    alloc: Global,
    words: Vec<String>,
    out: &mut O,
    err: &mut E,
) -> ExitStatus
    requires not_failed { (O.state out.old).has_failed ≡ false }
    requires named { 0 < vec_len words }
    // What is done for arguments that make a request, how others end, and what a failure leaves.
    ensures { KeepsPromises O.state out.old out.new result (R.may_give rt.now) (texts_of words.items) }
{
    let on_terminal = rt.stderr_is_terminal();
    let mut messages = Messages { err, on_terminal };
    let arguments = words.as_slice();
    let parsed = parse(alloc, arguments);
    let ended = match &parsed {
        Ok(request) => run_request(rt, alloc, request, out, &mut messages),
        Err(error) => end_without_request(alloc, arguments, error, out, &mut messages),
    };
    report_end(ended, &mut messages)
}

#[cfg(test)]
mod tests;
