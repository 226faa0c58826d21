//! Which standard streams are terminals.
use std::io::IsTerminal;

/// Which of a runtime's standard streams are terminals.
pub trait Terminal {
    /// Returns whether standard input is a terminal, so that somebody types the lines.
    fn stdin_is_terminal(&self) -> bool;

    /// Returns whether standard output is a terminal.
    fn stdout_is_terminal(&self) -> bool;

    /// Returns whether standard error is a terminal.
    fn stderr_is_terminal(&self) -> bool;
}

impl Terminal for HostRuntime {
    fn stdin_is_terminal(&self) -> bool {
        self.stdin().is_terminal()
    }

    fn stdout_is_terminal(&self) -> bool {
        self.stdout().is_terminal()
    }

    fn stderr_is_terminal(&self) -> bool {
        self.stderr().is_terminal()
    }
}
