//! The requests that a command line can make.
ghost use Rattle.std.specs.Prelude.{◌≡◌, IfErr, IfOk, IfSome, Some, codes, is_some, map, true};
ghost use Rattle.clap.specs.{Words.{FailsBy, fault_of, first_of, kind_of}, declared.error.kind.ErrorKind.TheVariants.{OutOfMemory}};
ghost use Rattle.kalah_solve.specs.Table.Entries.{IsTableSize, most_entries};
ghost use Rattle.kalah_run.specs.Limits.{IsWorkerCount, most_workers};
ghost use Rattle.kalah_cli.specs.Arguments.Command.{kalah_app};
ghost use Rattle.kalah_cli.specs.Arguments.Request.{AreMatches, IsAcceptedAs, IsInRange, MayHaveNumber, name_of_question, is_set, number_given};
ghost use Rattle.kalah_cli.specs.Arguments.Request.{rows_in, table_entries, task_of, task_of_ask, task_of_files, task_of_matches, worker_count};

use crate::arguments::command::command;
use crate::arguments::subcommands::{DEFAULT_ENTRIES, DEFAULT_WORKERS};
use clap::{ArgMatches, Error};
use kalah_jobs::Question;
use std::alloc::Global;
use std::convert::AsStr;

/// What the arguments ask the program to do. A search has a table of `table_entries` entries, 1 to 1,048,576.
#[derive(Drop)]
pub enum Request<'a> {
    /// Print something of the position that this line writes.
    Line { line: &'a str, command: LineCommand },
    /// Answer each line of files.
    Files(FilesRequest<'a>),
    /// Answer each line of the standard input.
    Ask(AskRequest),
    /// Refuse options that exclude each other.
    // By clap's `conflicts_with` it would be no request, but the contract of the ported clap says nothing of commands that use that.
    Conflict,
}

/// What is printed of a position.
#[derive(Clone, Copy)]
pub enum LineCommand {
    /// Its moves, with boards drawn or not.
    Moves { boards: bool },
    Play(PlayCommand),
    Show(ShowCommand),
    /// The number of ways of `depth` moves, 0 to 20, to play on from it.
    Count { depth: u8 },
}

/// How the game of best play from a position is printed.
#[derive(Clone, Copy)]
pub struct PlayCommand {
    pub table_entries: u32,
    /// Whether boards are drawn.
    pub boards: bool,
    /// Whether each move has the margin of best play of the position that it is made in.
    pub values: bool,
    /// The house of the first move, 1 to 6, if it is given.
    pub first: Option<u8>,
}

/// How a position is shown.
#[derive(Clone, Copy)]
pub struct ShowCommand {
    pub table_entries: u32,
    /// Whether its picture stands alone, without what its moves are worth.
    pub plain: bool,
    /// Whether the best play after each move stands below it, unless it is plain.
    pub lines: bool,
}

/// What is asked of the positions of the standard input.
#[derive(Clone, Copy)]
pub struct AskRequest {
    pub question: Question,
    pub table_entries: u32,
}

/// What is asked of the positions of files, and how they are answered.
#[derive(Drop)]
pub struct FilesRequest<'a> {
    /// What is asked of each position.
    pub question: Question,
    /// The number of workers, 1 to 64.
    pub workers: u32,
    /// The number of entries of each worker's table.
    pub table_entries: u32,
    /// Whether standard error shows how many lines are answered.
    pub progress: bool,
    /// The names of the files, at least one.
    pub names: Vec<&'a str>,
}

// Returns the number of workers that `--workers` gives, or the default.
fn worker_count(matches: &ArgMatches<'_>) -> u32
    requires { MayHaveNumber (codes "workers") 1 most_workers (rows_in matches.now) }
    ensures number { result ≡ worker_count (rows_in matches.now) }
    ensures range { IsWorkerCount result }
{
    matches.get_one::<u32>("workers").unwrap_or(DEFAULT_WORKERS)
}

// Returns the number of entries that `--table` gives.
fn table_entries_given(matches: &ArgMatches<'_>) -> Option<u32>
    requires { MayHaveNumber (codes "table") 1 most_entries (rows_in matches.now) }
    ensures given { result ≡ number_given (codes "table") (rows_in matches.now) }
    ensures range { IfSome result IsTableSize }
{
    matches.get_one::<u32>("table")
}

// Returns the number of entries that `--table` gives, or the default.
fn table_entries(matches: &ArgMatches<'_>) -> u32
    requires { MayHaveNumber (codes "table") 1 most_entries (rows_in matches.now) }
    ensures number { result ≡ table_entries (rows_in matches.now) }
    ensures range { IsTableSize result }
{
    table_entries_given(matches).unwrap_or(DEFAULT_ENTRIES)
}

// Returns the small number of an argument, if it has one.
fn byte_given(matches: &ArgMatches<'_>, id: &str) -> Option<u8>
    requires { MayHaveNumber id.now 0 255 (rows_in matches.now) }
    ensures { result ≡ number_given id.now (rows_in matches.now) }
{
    matches.get_one::<u8>(id)
}

fn is_set(matches: &ArgMatches<'_>, id: &str) -> bool
    ensures { result ≡ is_set id.now (rows_in matches.now) }
{
    matches.get_one::<bool>(id).unwrap_or(false)
}

// Returns the line of `moves`, `play`, `show` or `count`.
fn line_given<'a>(matches: &ArgMatches<'a>) -> &'a str
    requires { is_some (first_of (codes "line") (rows_in matches.now)) ≡ true }
    ensures { first_of (codes "line") (rows_in matches.now) ≡ Some result.now }
{
    matches.get_str("line").unwrap()
}

// Returns the request of the matches of `solve`, `values` or `steps`, which ask this of files. The table of steps, which need none, has one
// entry, the least.
fn files_request<'a>(
    alloc: Global,
    question: Question,
    matches: &ArgMatches<'a>,
) -> Result<Request<'a>, Error>
    requires { AreMatches (name_of_question question) (rows_in matches.now) }
    ensures memory { IfErr result (λ e. kind_of e ≡ OutOfMemory) }
    ensures asked { IfOk result (λ r. task_of_files question (rows_in matches.now) ≡ Some (task_of r)) }
    ensures range { IfOk result IsInRange }
{
    Ok(Request::Files(FilesRequest {
        question,
        workers: worker_count(matches),
        table_entries: match question {
            Question::BestMove | Question::Values => table_entries(matches),
            Question::Steps => 1,
        },
        progress: is_set(matches, "progress"),
        names: matches.get_strs("file").unwrap().to_vec(alloc)?,
    }))
}

// Returns the request of the matches of `ask`.
fn ask_request<'a>(matches: &ArgMatches<'a>) -> Request<'a>
    requires { MayHaveNumber (codes "table") 1 most_entries (rows_in matches.now) }
    ensures asked { task_of result ≡ task_of_ask (rows_in matches.now) }
    ensures range { IsInRange result }
{
    let (values, steps) = (is_set(matches, "values"), is_set(matches, "steps"));
    let (question, table_entries) = match (values, steps, table_entries_given(matches)) {
        (false, false, given) => (Question::BestMove, given.unwrap_or(DEFAULT_ENTRIES)),
        (true, false, given) => (Question::Values, given.unwrap_or(DEFAULT_ENTRIES)),
        (false, true, None) => (Question::Steps, 1),
        _ => return Request::Conflict,
    };
    Request::Ask(AskRequest {
        question,
        table_entries,
    })
}

// Returns the request of the matches of the subcommand of this name.
fn requested<'a>(alloc: Global, name: &str, matches: &ArgMatches<'a>) -> Result<Request<'a>, Error>
    requires { AreMatches name.now (rows_in matches.now) }
    ensures memory { IfErr result (λ e. kind_of e ≡ OutOfMemory) }
    ensures asked { IfOk result (λ r. task_of_matches (name.now, rows_in matches.now) ≡ Some (task_of r)) }
    ensures range { IfOk result IsInRange }
{
    let command = match name {
        "solve" => return files_request(alloc, Question::BestMove, matches),
        "values" => return files_request(alloc, Question::Values, matches),
        "steps" => return files_request(alloc, Question::Steps, matches),
        "ask" => return Ok(ask_request(matches)),
        "moves" => LineCommand::Moves {
            boards: is_set(matches, "boards"),
        },
        "play" => LineCommand::Play(PlayCommand {
            table_entries: table_entries(matches),
            boards: is_set(matches, "boards"),
            values: is_set(matches, "values"),
            first: byte_given(matches, "first"),
        }),
        "show" => LineCommand::Show(ShowCommand {
            table_entries: table_entries(matches),
            plain: is_set(matches, "plain"),
            lines: is_set(matches, "lines"),
        }),
        "count" => LineCommand::Count {
            depth: byte_given(matches, "depth").unwrap(),
        },
        _ => unreachable!(),
    };
    Ok(Request::Line {
        line: line_given(matches),
        command,
    })
}

/// Parses the arguments, whose first is the program's name. Fails with clap's error, whose text says why: help or the version was asked
/// for, an argument is wrong, or memory was refused.
pub(crate) fn parse<'a, S: AsStr>(alloc: Global, arguments: &'a [S]) -> Result<Request<'a>, Error>
    ensures accepted { IfOk result
        (λ r. IsAcceptedAs (map S.text arguments.entry.now) (task_of r)) }
    ensures range { IfOk result IsInRange }
    ensures kinds { FailsBy (fault_of kalah_app (map S.text arguments.entry.now)) result }
{
    let parsed = command(alloc)?.try_get_matches_from(arguments)?;
    let (name, matches) = parsed.subcommand().unwrap();
    requested(alloc, name, matches)
}
