//! The tips that follow a message if standard error is a terminal.
use crate::exit::failure::Failure;
use crate::system::messages::Messages;
use crate::system::read_files::ReadFault;
use kalah_jobs::{FileText, read_line};
use kalah_run::RunFault;
use std::io::Write;

mod arguments;
mod line;

pub(crate) use arguments::report_refused;
pub(crate) use line::report_fault;

// The tip for an argument that is a position.
const POSITION: &str = "for a position, use `kalah show '{}'`, or `kalah ask`";

const UTF_16: &str =
    "a file is UTF-16; convert it, as in `iconv -f UTF-16 -t UTF-8 FILE | kalah ask`";

// The byte order marks, and the tip for each.
const MARKS: &[(&[u8], &str)] = &[
    (b"\xFF\xFE", UTF_16),
    (b"\xFE\xFF", UTF_16),
    (
        b"\xEF\xBB\xBF",
        "a file begins with a byte order mark, which is no part of a position",
    ),
];

fn is_position(text: &str) -> bool {
    read_line(text.as_bytes()).is_ok()
}

// Returns whether a text looks like one side of a position, as `1,1/0`: digits, commas and one slash.
fn is_side(text: &str) -> bool {
    let mut slashes = 0u32;
    for byte in text.as_bytes() {
        match *byte {
            b'/' => slashes = slashes.saturating_add(1),
            b',' | b'0'..=b'9' => {}
            _ => return false,
        }
    }
    slashes == 1
}

// Returns the tip for a file of this name that can't be read.
fn tip_for_file(name: &str, fault: ReadFault) -> &'static str {
    match fault {
        _ if is_position(name) => POSITION,
        ReadFault::Missing if is_side(name) =>
            "for a position, use `kalah show '1,1/0 1,1/0'`, in quotes, or `kalah ask`",
        ReadFault::Missing if name == "-" => "for standard input, use /dev/stdin",
        ReadFault::Missing => "there is no such file",
        ReadFault::Folder => "it is a folder; name the files in it",
        ReadFault::Forbidden => "you have no permission to read it",
        ReadFault::TooLong =>
            "it has more than 67108864 bytes; `kalah ask` has no limit, or split it (docs/LARGE.md)",
        ReadFault::Unreadable => "it can't be opened, or a read failed",
    }
}

/// Writes the tip for a failure, if it has one. If the name of a file that can't be read is a position, it says what draws that.
pub(crate) fn advise_on_failure<E: Write>(failure: Failure<'_>, messages: &mut Messages<E>) {
    let tip = match failure {
        Failure::Unreadable { name, fault } => {
            messages.write_tip(tip_for_file(name, fault), name);
            return;
        }
        Failure::Run(RunFault::TooManyFiles) =>
            "at most 256 files a run; give them to several runs (docs/LARGE.md)",
        Failure::Run(RunFault::TooManyLines) =>
            "at most 1000000 lines a run; `kalah ask` has no limit, or split the files (docs/LARGE.md)",
        Failure::Run(RunFault::Write) => "the disk is full, or the reader of the output has left",
        _ => return,
    };
    messages.write_tip(tip, "");
}

/// Writes a tip for the first of these files that begins with a byte order mark, so that its first line, or all of them, can't be read.
pub(crate) fn advise_on_files<E: Write>(files: &[FileText], messages: &mut Messages<E>) {
    for file in files {
        let bytes = file.bytes.as_slice();
        for (mark, tip) in MARKS {
            if bytes.starts_with(*mark) {
                messages.write_tip(tip, "");
                return;
            }
        }
    }
}
