//! Solves small positions of Kalah. `SUBCOMMANDS` lists what can be asked.
#![tactic(auto)]

mod arguments;
mod commands;
mod exit;
mod run;
mod system;
#[cfg(test)]
mod tests;

use exit::failure::{Failure, report_end};
use exit::status::ExitStatus;
use run::run_words;
use std::io::{BufWriter, ErrorKind};
use std::process::ExitCode;
use std::{env, io};
use system::fused::Fused;
use system::messages::Messages;
use system::prompt_stream::PromptStream;

// Returns the arguments. The first is the program's name.
fn arguments_of(rt: &HostRuntime) -> Result<Vec<String>, Failure<'static>> {
    match env::args(rt) {
        Ok(arguments) => arguments
            .collect(rt.alloc())
            .or(Err(Failure::OUT_OF_MEMORY)),
        Err(error) => match error.kind() {
            ErrorKind::OutOfMemory => Err(Failure::OUT_OF_MEMORY),
            _ => Err(Failure::NotText),
        },
    }
}

fn main(rt: HostRuntime) -> ExitCode {
    let mut err = rt.stderr();
    let ended = match arguments_of(&rt) {
        // There is not even the program's name: it ends without a message.
        Ok(arguments) if arguments.is_empty() => Ok(ExitStatus::Failed),
        Ok(arguments) => match BufWriter::new(rt.alloc(), Fused::new(io::writer(&rt))) {
            Ok(out) => {
                let mut out = PromptStream::new(out);
                Ok(run_words(&rt, rt.alloc(), arguments, &mut out, &mut err))
            }
            Err(_) => Err(Failure::OUT_OF_MEMORY),
        },
        Err(failure) => Err(failure),
    };
    // These failures have no tip.
    let on_terminal = false;
    ExitCode::from(report_end(ended, &mut Messages { err, on_terminal }).code())
}
