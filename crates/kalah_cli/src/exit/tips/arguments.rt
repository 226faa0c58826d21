//! Why arguments are refused, and the tip that follows.
use super::{POSITION, is_position, is_side};
use crate::system::messages::Messages;
use std::io::Write;

const QUOTES: &str = "a position is one argument, so put it in quotes: '1,1/0 1,1/0'";

const COUNT: &str = "DEPTH comes first, as in `kalah count 3 '1,1/0 1,1/0'`";

const WORKERS: &str = "use `--workers N`";

const VERSION: &str = "use `kalah --version`";

macro_rules! tips {
    ($($one:literal, $other:literal => $tip:expr;)*) => { &[$(($one, $other, $tip)),*] };
}

// Two parts of what the command line says to refuse arguments, and the tip about the first argument if it has both. The first row that
// fits gives the tip.
const TIPS: &[(&str, &str, &str)] = tips! {
    "not provided", "<FILE>" => "for standard input, use /dev/stdin, as in `kalah solve /dev/stdin`";
    "not provided", " count <DEPTH>" => COUNT;
    "'--values' found", "<FILE>" => "use `kalah values FILE`";
    "'--steps' found", "<FILE>" => "use `kalah steps FILE`";
    "'-w' found", "<FILE>" => WORKERS;
    "'-j' found", "<FILE>" => WORKERS;
    "'--jobs' found", "<FILE>" => WORKERS;
    "'--threads' found", "<FILE>" => WORKERS;
    "'--json' found", "<FILE>" => "`python3 -m kalah table --json FILE` prints JSON";
    "'--boards' found", " show [OPTIONS]" => "`kalah show` draws the board without it";
    "'--values' found", "kalah show " => "use `kalah show --lines LINE`, or `kalah values FILE`";
    "'e' found", "<LINE>" => "` e` stands inside the quotes, as in '1,1/0 1,1/0 e'";
    "'--depth' found", " count <DEPTH>" => COUNT;
    "'<DEPTH>'", "invalid digit" => COUNT;
    "'--workers <N>'", "invalid digit" => "N is a number from 1 to 64";
    "'--table <N>'", "invalid digit" => "N is a number from 1 to 1048576";
    "'--first <H>'", "invalid digit" => "H is a house from 1 to 6";
    "'-v' found", "<COMMAND>" => VERSION;
    "'-V' found", "Usage: kalah" => VERSION;
    "'--version' found", "Usage: kalah" => VERSION;
    "'version'", "<COMMAND>" => VERSION;
    "'help'", "<COMMAND>" => "use `kalah --help`";
    "'perft'", "<COMMAND>" => "use `kalah count DEPTH LINE`";
    "'best'", "<COMMAND>" => "use `kalah show LINE`, or `kalah solve FILE`";
    "not provided", "" => "as in `kalah {} '1,1/0 1,1/0'`";
};

// The subcommands that have one argument LINE.
const WITH_LINE: &[&str] = &["moves", "play", "show", "count"];

// A tip, and the argument that it is about.
type Tip<'a> = (&'static str, &'a str);

// Returns the tip for a first argument that is no subcommand.
fn tip_for_name(name: &str) -> Option<Tip<'_>> {
    if is_position(name) {
        Some((POSITION, name))
    } else if is_side(name) {
        Some((QUOTES, name))
    } else if name.contains('.') {
        Some(("for a file of positions, use `kalah solve {}`", name))
    } else {
        None
    }
}

// Returns the tip for an argument of this subcommand that is one too many.
fn tip_for_excess<'a>(subcommand: &str, argument: &'a str) -> Option<Tip<'a>> {
    let tip = match subcommand {
        "ask" => if is_side(argument) || is_position(argument) {
            "`kalah ask` reads standard input; for one position, use `kalah show '1,1/0 1,1/0'`"
        } else if !argument.starts_with('-') {
            "`kalah ask` reads standard input: use `kalah ask < {}`"
        } else {
            return None;
        },
        "play" if matches!(argument.as_bytes(), [b'1'..=b'6']) =>
            "for the first move, use `--first {}`",
        _ => return None,
    };
    Some((tip, argument))
}

// Returns the tip for arguments that the command line refuses with this text, and whose first has this name.
fn tip_for_text<'a>(text: &str, name: &'a str) -> Option<Tip<'a>> {
    for (one, other, tip) in TIPS {
        if text.contains(*one) && text.contains(*other) {
            return Some((*tip, name));
        }
    }
    None
}

// Returns whether two adjacent arguments each have a slash, as those of a position without quotes.
fn has_parts(arguments: &[String]) -> bool {
    let mut has_slash = false;
    for argument in arguments {
        let had_slash = has_slash;
        has_slash = argument.contains('/');
        if had_slash && has_slash {
            return true;
        }
    }
    false
}

// Returns the tip for arguments that the command line refuses with this text, if there is one.
fn tip_for<'a>(arguments: &'a [String], text: &str) -> Option<Tip<'a>> {
    let [_, name, rest @ ..] = arguments else {
        return None;
    };
    let name = name.as_str();
    let is_unknown = text.contains("unrecognized subcommand");
    let tip = match rest {
        [next, ..] if is_unknown && name == "help" => Some((
            "use `kalah {} --help`",
            next.as_str(),
        )),
        _ if is_unknown => tip_for_name(name),
        _ if WITH_LINE.contains(&name) && has_parts(rest) => Some((QUOTES, name)),
        [.., last] if text.contains("unexpected argument") => tip_for_excess(name, last.as_str()),
        _ => None,
    };
    tip.or(tip_for_text(text, name))
}

/// Writes why arguments are refused, which is this text. On a terminal control characters are escaped, and the tip follows, if there is
/// one.
pub(crate) fn report_refused<E: Write>(
    arguments: &[String],
    text: &str,
    messages: &mut Messages<E>,
) {
    messages.write_escaped(text);
    if messages.on_terminal {
        if let Some((tip, argument)) = tip_for(arguments, text) {
            messages.write("\n");
            messages.write_tip(tip, argument);
        }
    }
}
