//! `kalah ask`.
ghost use Rattle.std.specs.Prelude.{◌≡◌, ◌↔◌, IfOk, IsErr, false, true};
ghost use Rattle.kalah_solve.specs.Table.Entries.{IsTableSize};
ghost use Rattle.kalah_cli.specs.{Commands.Ask.{AnswersStandardInput}, Exit.Ends.{exit_status_of}};

use crate::arguments::request::AskRequest;
use crate::commands::game_solver::new_solver;
use crate::exit::failure::Failure;
use crate::exit::status::ExitStatus;
use crate::system::messages::Messages;
use crate::system::sources::Sources;
use crate::system::terminal::Terminal;
use kalah_jobs::{AskFault, Sink, answer_lines};
use kalah_run::RunFault;
use std::alloc::Global;
use std::io::{BufReader, Write};

// What is written to a terminal before lines are typed.
const HINT: &str = "kalah: waits for positions, one a line, as 1,1/0 1,1/0; Ctrl-D ends\n";

// Returns how the program ends after such an answer to all lines.
fn status_of_answers(answered: Result<bool, AskFault>) -> Result<ExitStatus, Failure<'static>>
    ensures clean { IfOk answered (λ all_read. exit_status_of result ≡ ExitStatus.Clean ↔ all_read ≡ true) }
    ensures failed { IsErr answered ↔ exit_status_of result ≡ ExitStatus.Failed }
{
    match answered {
        Ok(true) => Ok(ExitStatus::Clean),
        Ok(false) => Ok(ExitStatus::LineFaults),
        Err(AskFault::Read) => Err(Failure::StandardInput),
        Err(AskFault::Write) => Err(Failure::Run(RunFault::Write)),
    }
}

/// Answers what is asked of each line of the standard input, with one solver. It reads more only after the answers to all that was read are
/// written. Memory is requested before the first read, except for what the table takes as it grows. To a terminal it first says what
/// it waits for.
///
/// Returns `Clean` if each line was read, and `LineFaults` if one was not. Fails if memory was refused, or a read or a write failed.
#[inline(never)] // Only this command's stack holds its solver.
pub(crate) fn run_ask<R: Sources + Terminal, O: Sink, E: Write>(
    rt: &R,
    alloc: Global,
    request: AskRequest,
    out: &mut O,
    messages: &mut Messages<E>,
) -> Result<ExitStatus, Failure<'static>>
    requires table { IsTableSize request.table_entries }
    requires not_failed { (O.state out.old).has_failed ≡ false }
    ensures { AnswersStandardInput O.state out.old out.new (exit_status_of result) (R.may_give rt.now) request.question }
{
    let Ok(mut reader) = BufReader::new(alloc, rt.standard_input()) else {
        return Err(Failure::OUT_OF_MEMORY);
    };
    let Ok(mut solver) = new_solver(alloc, request.table_entries) else {
        return Err(Failure::OUT_OF_MEMORY);
    };
    if rt.stdin_is_terminal() {
        messages.write(HINT);
    }
    status_of_answers(answer_lines(&mut reader, request.question, &mut solver, out))
}
