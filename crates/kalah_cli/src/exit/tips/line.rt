//! Why a line can't be read, and the tip that follows.
use crate::system::messages::Messages;
use kalah_jobs::LineFault;
use std::io::Write;

const FORM: &str = "the form is `1,1/0 1,1/0`; numbers are 0 to 99, without a zero before them";

/// Writes why a line can't be read, and on a terminal a tip.
pub(crate) fn report_fault<E: Write>(fault: LineFault, line: &str, messages: &mut Messages<E>) {
    let _ = writeln!(messages.err, "fault {}", fault.word());
    let tip = match fault {
        LineFault::Seeds => {
            if messages.on_terminal {
                let seeds = seeds_in_houses(line);
                let _ = writeln!(
                    messages.err,
                    "  tip: {seeds} seeds in houses; at most 31 are accepted"
                );
            }
            return;
        }
        LineFault::Long => "a line has at most 80 bytes",
        LineFault::Houses => "each side has the same number of houses, 1 to 6",
        LineFault::Shape => tip_for_shape(line),
        LineFault::Empty => FORM,
    };
    messages.write_tip(tip, "");
}

// Returns whether a text has a letter or a dot, as the name of a file, and no position.
fn looks_like_name(text: &str) -> bool {
    for byte in text.as_bytes() {
        if byte.is_ascii_alphabetic() || *byte == b'.' {
            return true;
        }
    }
    false
}

// Returns the tip for a line that does not have the form of a position.
fn tip_for_shape(line: &str) -> &'static str {
    if line.contains("  ") {
        "exactly one space between the sides, as in `1,1/0 1,1/0`"
    } else if line.ends_with(" E") {
        "the empty-capture rule is a small ` e` at the end, as in `1,1/0 1,1/0 e`"
    } else if line.contains(' ') {
        FORM
    } else if looks_like_name(line) {
        "it is no position; for a file of positions, use `kalah solve FILE`"
    } else {
        "one space between the sides, as in `1,1/0 1,1/0`"
    }
}

// Returns the sum of the houses of a line that has the form of a position.
fn seeds_in_houses(line: &str) -> u32 {
    let mut seeds = 0u32;
    for number in line.split([' ', ',']) {
        let house = match number.split_once('/') {
            Some((house, _)) => house,
            None => number,
        };
        seeds = seeds.saturating_add(house.parse().unwrap_or(0));
    }
    seeds
}
