//! The exit status of the program.
ghost use Rattle.std.specs.Prelude.{◌≡◌};
ghost use Rattle.kalah_cli.specs.Exit.Status.{status_number};

/// The exit status of the program.
#[derive(Clone, Copy, PartialEq, Eq)]
pub enum ExitStatus {
    /// Every line was read, or help or the version was printed.
    Clean,
    /// At least one line was not read.
    LineFaults,
    /// The arguments, a file, standard input, memory, a worker or a write to the output failed.
    Failed,
}

impl ExitStatus {
    /// Returns the number that the system is given: 0, 1 or 2.
    pub fn code(self) -> u8
        ensures { result ≡ status_number self }
    {
        match self {
            ExitStatus::Clean => 0,
            ExitStatus::LineFaults => 1,
            ExitStatus::Failed => 2,
        }
    }
}
