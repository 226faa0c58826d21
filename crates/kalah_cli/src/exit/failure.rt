//! The failures of the program, and their messages.
ghost use Rattle.std.specs.Prelude.{◌≡◌, ◌≢◌, ◌↔◌, true};
ghost use Rattle.kalah_cli.specs.Exit.Ends.{exit_status_of};

use crate::arguments::help;
use crate::exit::status::ExitStatus;
use crate::exit::tips::advise_on_failure;
use crate::system::messages::Messages;
use crate::system::read_files::ReadFault;
use kalah_jobs::Sink;
use kalah_run::RunFault;
use std::io::Write;

/// Why the program failed, except for arguments that clap refuses.
#[derive(Clone, Copy)]
pub(crate) enum Failure<'a> {
    /// The fault of a batch, or the same of another run: memory was refused, or a write failed.
    Run(RunFault),
    /// The name of a file has a line feed in it.
    LineFeed,
    /// The file of this name can't be read, for this cause.
    Unreadable { name: &'a str, fault: ReadFault },
    /// The game can't begin with this house, which may not be moved.
    IllegalHouse(u8),
    /// A read of the standard input failed.
    StandardInput,
    /// Options exclude each other.
    Conflict,
    /// An argument is not UTF-8.
    NotText,
}

impl Failure<'_> {
    /// Memory was refused.
    pub(crate) const OUT_OF_MEMORY: Failure<'static> = Failure::Run(RunFault::OutOfMemory);

    /// Writes the message of the failure.
    pub(crate) fn report<E: Write>(self, messages: &mut Messages<E>) {
        let message = match self {
            Failure::Run(fault) => {
                let _ = writeln!(messages.err, "kalah: {fault}");
                return;
            }
            Failure::Unreadable { name, .. } => {
                messages.write("kalah: cannot read ");
                messages.write_escaped(name);
                "\n"
            }
            Failure::IllegalHouse(house) => {
                let _ = writeln!(messages.err, "kalah: house {house} can't be moved");
                return;
            }
            Failure::LineFeed => "kalah: line feed in a file name\n",
            Failure::StandardInput => "kalah: cannot read standard input\n",
            Failure::NotText => "kalah: a word is not UTF-8\n",
            Failure::Conflict => help::CONFLICT,
        };
        messages.write(message);
    }
}

/// Returns the exit status of a run that ended so. If it failed, it reports the failure, and on a terminal its tip.
pub(crate) fn report_end<E: Write>(
    ended: Result<ExitStatus, Failure<'_>>,
    messages: &mut Messages<E>,
) -> ExitStatus
    ensures { result ≡ exit_status_of ended.entry }
{
    match ended {
        Ok(status) => status,
        Err(failure) => {
            failure.report(messages);
            advise_on_failure(failure, messages);
            ExitStatus::Failed
        }
    }
}

/// Returns `Clean` if the output has not failed. Otherwise fails with `RunFault::Write`.
pub(crate) fn status_of_sink<O: Sink>(out: &O) -> Result<ExitStatus, Failure<'static>>
    ensures failed { (O.state out.now).has_failed ≡ true ↔ exit_status_of result ≡ ExitStatus.Failed }
    ensures no_line { exit_status_of result ≢ ExitStatus.LineFaults }
{
    if out.failed() {
        return Err(Failure::Run(RunFault::Write));
    }
    Ok(ExitStatus::Clean)
}
