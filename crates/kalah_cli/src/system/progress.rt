//! `--progress`: the progress of a batch, on standard error.
use crate::system::messages::Messages;
use crate::system::terminal::Terminal;
use kalah_jobs::FileText;
use kalah_run::Watch;
use std::io::Write;
use std::rt::Clock;
use std::time::Duration;

/// Shows how many lines of a batch are answered, and how long the others will take at that rate. It writes at most a line for each per
/// cent. On a terminal without the answers it rewrites one line, at most ten times as often, and before each wait. Text that standard
/// error does not accept is dropped.
#[derive(Drop)]
pub(crate) struct Progress<'a, R, E> {
    rt: &'a R,
    messages: &'a mut Messages<E>,
    // The number of lines of the batch, or 0 if nothing is shown: the answered share of no lines never grows.
    lines: u64,
    // Whether one line is rewritten.
    in_place: bool,
    // The time by the monotonic clock when the batch began, or the greatest one if the clock failed.
    begun: Duration,
    answered: u64,
    // The number of answered lines that was shown last.
    shown: u64,
}

// Returns how many lines the files have together.
fn lines_of_files(files: &[FileText]) -> u64 {
    let mut lines = 0u64;
    for file in files {
        lines = lines.saturating_add(file.lines() as u64);
    }
    lines
}

// Returns how many of `parts` equal parts of the lines are answered, rounded down. Of no lines all parts are.
fn share(answered: u64, lines: u64, parts: u64) -> u64 {
    answered
        .saturating_mul(parts)
        .checked_div(lines)
        .unwrap_or(parts)
}

// Returns a time in seconds below two minutes, in minutes below two hours, and else in hours, rounded down.
fn in_units(seconds: u64) -> (u64, &'static str) {
    if seconds < 120 {
        (seconds, "s")
    } else if seconds < 7200 {
        (seconds / 60, "min")
    } else {
        (seconds / 3600, "h")
    }
}

impl<'a, R: Clock + Terminal, E: Write> Progress<'a, R, E> {
    /// Shows that no line of these files is answered yet. If nothing is to be shown, this is a watch that does nothing.
    pub(crate) fn begin(
        rt: &'a R,
        messages: &'a mut Messages<E>,
        files: &[FileText],
        is_shown: bool,
    ) -> Progress<'a, R, E> {
        let mut progress = Progress {
            rt,
            lines: if is_shown { lines_of_files(files) } else { 0 },
            in_place: is_shown && messages.on_terminal && !rt.stdout_is_terminal(),
            messages,
            begun: rt.monotonic().unwrap_or(Duration::MAX),
            answered: 0,
            shown: 0,
        };
        if is_shown {
            progress.show();
        }
        progress
    }

    /// Ends the line that is rewritten.
    pub(crate) fn end(&mut self) {
        if self.in_place {
            self.messages.write("\n");
        }
    }

    // Shows how many lines are answered.
    fn show(&mut self) {
        let (answered, lines) = (self.answered, self.lines);
        self.shown = answered;
        // A line that is rewritten begins where it stood, and erases what is left of an earlier and longer text.
        let mut end = "\n";
        if self.in_place {
            self.messages.write("\r");
            end = "\x1b[K";
        }
        let per_cent = share(answered, lines, 100);
        let _ = write!(
            self.messages.err,
            "kalah: {answered} of {lines} lines, {per_cent} %"
        );
        if let Some(seconds) = self.seconds_left() {
            let (count, unit) = in_units(seconds);
            let _ = write!(self.messages.err, ", {count} {unit} left");
        }
        self.messages.write(end);
    }

    // Returns how long the other lines take at the rate so far, if that is known.
    fn seconds_left(&self) -> Option<u64> {
        let now = self.rt.monotonic().unwrap_or(Duration::ZERO);
        let time = now.saturating_sub(self.begun);
        let left = self.lines.saturating_sub(self.answered);
        match time.as_secs().saturating_mul(left) {
            0 => None,
            seconds => seconds.checked_div(self.answered),
        }
    }
}

impl<R: Clock + Terminal, E: Write> Watch for Progress<'_, R, E> {
    fn on_accepted(&mut self) {
        self.answered = self.answered.saturating_add(1);
        let parts = if self.in_place { 1000 } else { 100 };
        if share(self.answered, self.lines, parts) > share(self.shown, self.lines, parts) {
            self.show();
        }
    }

    fn on_waiting(&mut self) {
        if self.in_place && self.answered > self.shown {
            self.show();
        }
    }
}

#[cfg(test)]
mod tests;
