//! The subcommands of the program, with their arguments.
use crate::arguments::help;
use clap::ArgAction;
use kalah_rules::{MOST_DEPTH, MOST_HOUSES};
use kalah_run::MOST_WORKERS;
use kalah_solve::MOST_ENTRIES;

pub(crate) struct Subcommand {
    pub(crate) name: &'static str,
    /// What it does, in one line.
    pub(crate) about: &'static str,
    /// What its long help ends in.
    pub(crate) long_help: &'static str,
    /// Its arguments, in the order of its help.
    pub(crate) arguments: &'static [Argument],
}

pub(crate) struct Argument {
    pub(crate) name: &'static str,
    pub(crate) help: &'static str,
    pub(crate) kind: ArgumentKind,
}

/// How an argument is given.
pub(crate) enum ArgumentKind {
    /// `--NAME`.
    Flag,
    /// `--NAME N`, with a number from 1 to the most.
    NumberOption {
        value_name: &'static str,
        most: u64,
        long_help: &'static str,
    },
    /// A number from 0 to the most. It is required.
    PositionalNumber {
        value_name: &'static str,
        most: u64,
    },
    /// A text, or several texts, by the action. One is required.
    PositionalText {
        value_name: &'static str,
        action: ArgAction,
    },
}

/// How many workers there are without `--workers`. The help of that has the number, too.
pub(crate) const DEFAULT_WORKERS: u32 = 4;

/// How many entries a table has without `--table`. The help of that has the number, too.
pub(crate) const DEFAULT_ENTRIES: u32 = 65_536;

macro_rules! flag {
    ($name:literal, $help:literal) => {
        Argument {
            name: $name,
            help: $help,
            kind: ArgumentKind::Flag,
        }
    };
}

macro_rules! table_option {
    ($end:literal) => {
        Argument {
            name: "table",
            help: "Use tables of N entries, 1 to 1048576 [default: 65536]",
            kind: ArgumentKind::NumberOption {
                value_name: "N",
                most: MOST_ENTRIES as u64,
                long_help: concat!(
                    "Use tables of N entries, 1 to 1048576.\nLeave it at the default, 65536, unless memory is short",
                    $end
                ),
            },
        }
    };
}

const WORKERS: Argument = Argument {
    name: "workers",
    help: "Answer up to N lines in parallel, 1 to 64 [default: 4]",
    kind: ArgumentKind::NumberOption {
        value_name: "N",
        most: MOST_WORKERS as u64,
        long_help: "Answer up to N lines in parallel, 1 to 64\n\n[default: 4]",
    },
};

const TABLE: Argument = table_option!("\n\n[default: 65536]");

const PROGRESS: Argument = flag!(
    "progress",
    "Show on standard error how many lines are answered"
);

const FILES: Argument = Argument {
    name: "file",
    help: "Files of positions, one a line; /dev/stdin for standard input",
    kind: ArgumentKind::PositionalText {
        value_name: "FILE",
        action: ArgAction::Append,
    },
};

const BOARDS: Argument = flag!("boards", "Draw each position below its line");

const LINE: Argument = Argument {
    name: "line",
    help: "Position in quotes, such as '1,1/0 1,1/0'",
    kind: ArgumentKind::PositionalText {
        value_name: "LINE",
        action: ArgAction::Set,
    },
};

const HELP_OF_FIRST: &str = "Begin with house H, 1 to 6, and go on with best play";

/// The subcommands, in the order of the program's help.
pub(crate) const SUBCOMMANDS: &[Subcommand] = &[
    Subcommand {
        name: "solve",
        about: "Print the best house and the margin of best play of each position",
        long_help: help::LONG_OF_SOLVE,
        arguments: &[WORKERS, TABLE, PROGRESS, FILES],
    },
    Subcommand {
        name: "values",
        about: "Print what each move of each position is worth",
        long_help: help::LONG_OF_VALUES,
        arguments: &[WORKERS, TABLE, PROGRESS, FILES],
    },
    Subcommand {
        name: "show",
        about: "Draw a position, and below each house what its move is worth",
        long_help: help::LONG_OF_SHOW,
        arguments: &[
            flag!("plain", "Draw the position alone, and search nothing"),
            flag!(
                "lines",
                "Print the best play after each move, the best move first"
            ),
            TABLE,
            LINE,
        ],
    },
    Subcommand {
        name: "play",
        about: "Print the game that best play leads to from a position, move by move",
        long_help: help::LONG_OF_PLAY,
        arguments: &[
            TABLE,
            BOARDS,
            flag!(
                "values",
                "Print with each move the value of the position it was made in"
            ),
            Argument {
                name: "first",
                help: HELP_OF_FIRST,
                kind: ArgumentKind::NumberOption {
                    value_name: "H",
                    most: MOST_HOUSES as u64,
                    long_help: HELP_OF_FIRST,
                },
            },
            LINE,
        ],
    },
    Subcommand {
        name: "moves",
        about: "Print each legal move of a position, and the position after it",
        long_help: help::LONG_OF_MOVES,
        arguments: &[BOARDS, LINE],
    },
    Subcommand {
        name: "ask",
        about: "Answer each line of standard input before reading the next",
        long_help: help::LONG_OF_ASK,
        arguments: &[
            flag!("values", "Print what each move is worth, as `values`"),
            flag!(
                "steps",
                "Print each legal move, as `steps`, with `; ` between any two"
            ),
            table_option!(""),
        ],
    },
    Subcommand {
        name: "steps",
        about: "Print each legal move of each position, and what it leads to",
        long_help: help::LONG_OF_STEPS,
        arguments: &[WORKERS, PROGRESS, FILES],
    },
    Subcommand {
        name: "count",
        about: "Count the ways to play on from a position, for each first move",
        long_help: help::LONG_OF_COUNT,
        arguments: &[
            Argument {
                name: "depth",
                help: "How many moves each way has, 0 to 20",
                kind: ArgumentKind::PositionalNumber {
                    value_name: "DEPTH",
                    most: MOST_DEPTH as u64,
                },
            },
            LINE,
        ],
    },
];
