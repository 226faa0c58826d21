//! `kalah moves LINE`, `kalah play LINE`, `kalah show LINE` and `kalah count DEPTH LINE`.
ghost use Rattle.std.specs.Prelude.{◌≡◌, IsErr, MatchResult, OnOk, false};
ghost use Rattle.kalah_cli.specs.{Exit.Ends.{exit_status_of}, Commands.{LineCommand.{MayPrint, SearchesNothing, command_output}, Printing.{IsPrinted}}, Arguments.Request.{IsCommandInRange, about_line}, Runs.{Does}, System.Sources.{any_bytes}};

use crate::arguments::request::LineCommand;
use crate::commands::count::write_count;
use crate::commands::moves::write_moves;
use crate::commands::play::run_play;
use crate::commands::show::run_show;
use crate::exit::failure::{Failure, status_of_sink};
use crate::exit::status::ExitStatus;
use crate::exit::tips::report_fault;
use crate::system::messages::Messages;
use kalah_jobs::{Sink, read_line};
use kalah_rules::Board;
use std::alloc::Global;
use std::io::Write;

// Prints what the command prints of a board. Fails as `run_play` and `run_show` do, and then writes nothing.
fn print<O: Sink>(
    alloc: Global,
    command: &LineCommand,
    board: &Board,
    out: &mut O,
) -> Result<(), Failure<'static>>
    requires { IsCommandInRange command.now }
    ensures printed { MatchResult result (λ _. IsPrinted O.state out.old out.new (command_output command.now board.now))
        (λ _. out.new ≡ out.old) }
    ensures begins { OnOk result (MayPrint command.now board.now) }
    // A command for which nothing is searched never fails.
    ensures searchless { SearchesNothing command.now → IsErr result → ⊥ }
{
    match command {
        LineCommand::Moves { boards } => write_moves(board, *boards, out),
        LineCommand::Play(play) => return run_play(alloc, board, *play, out),
        LineCommand::Show(show) => return run_show(alloc, board, *show, out),
        LineCommand::Count { depth } => write_count(board, *depth, out),
    }
    Ok(())
}

/// Prints what the command prints of the position that the line writes. A line that can't be read is answered by its fault, in a message.
///
/// Returns `Clean`, or `LineFaults` for a line that can't be read. Fails for a house that may not be moved, or if memory was refused or a
/// write failed.
pub(crate) fn run_line<O: Sink, E: Write>(
    alloc: Global,
    line: &str,
    command: &LineCommand,
    out: &mut O,
    messages: &mut Messages<E>,
) -> Result<ExitStatus, Failure<'static>>
    requires range { IsCommandInRange command.now }
    requires not_failed { (O.state out.old).has_failed ≡ false }
    ensures { Does O.state out.old out.new (exit_status_of result) any_bytes (about_line command.now line.now) }
{
    match read_line(line.as_bytes()) {
        Ok(board) => match print(alloc, command, &board, out) {
            Ok(()) => status_of_sink(out),
            Err(failure) => Err(failure),
        },
        Err(fault) => {
            report_fault(fault, line, messages);
            Ok(ExitStatus::LineFaults)
        }
    }
}
