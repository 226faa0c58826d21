//! `kalah count DEPTH LINE`.
ghost use Rattle.std.specs.Prelude.{◌≡◌, ◌≤◌, false};
ghost use Rattle.kalah_rules.specs.{Limits.{most_depth}, Ways.{ways}};
ghost use Rattle.kalah_jobs.specs.Writing.Sink.{WasGiven};
ghost use Rattle.kalah_cli.specs.Commands.{Count.{count_output, ways_lines}, Printing.{IsPrinted}};

use kalah_jobs::{Sink, flush_unless_failed, write_total, write_ways};
use kalah_rules::Board;

// Returns the number of ways of `depth` moves. Before, it writes for each legal move, houses in ascending order, how many of them begin
// with it. Each line is flushed before the next one is counted. If the output has failed, nothing more is counted, and it returns 0.
fn write_ways_by_house<O: Sink>(board: &Board, depth: u8, out: &mut O) -> u64
    requires { depth ≤ most_depth }
    ensures total { (O.state out.new).has_failed ≡ false → result ≡ ways depth board.now }
    ensures given { WasGiven O.state out.old out.new (ways_lines depth board.now) }
{
    if depth == 0 {
        return board.ways(0);
    }
    let moves = board.legal();
    let mut total = 0;
    for i in 0..moves.len() {
        if out.failed() {
            return 0;
        }
        let house = moves.get(i);
        let ways = board.ways_by(house, depth - 1);
        write_ways(out, house, ways);
        flush_unless_failed(out);
        total += ways;
    }
    total
}

/// Prints the number of ways of `depth` moves to play on from a board, for each first move and in all. It allocates nothing.
#[inline(never)] // Only this command's stack holds the table of sowings.
pub(crate) fn write_count<O: Sink>(board: &Board, depth: u8, out: &mut O)
    requires { depth ≤ most_depth }
    ensures { IsPrinted O.state out.old out.new (count_output depth board.now) }
{
    let total = write_ways_by_house(board, depth, out);
    write_total(out, total);
    flush_unless_failed(out);
}
