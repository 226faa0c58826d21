//! The texts of the help that `clap` doesn't write itself, the version, and the message about options that exclude each other.

/// What `--version` prints. The contract (`version_line`) has the number too.
pub(crate) const VERSION_LINE: &str = "kalah 1.4.0\n";

// What a position is, before more about a subcommand that takes one.
macro_rules! of_a_position {
    ($($more:literal),*) => {
        concat!("\
A position is one argument, so it needs quotes. '1,1/0 1,1/0' has the houses and
the store of the player to move, and then those of the other player.
", $($more),*)
    };
}

// And what the line of a move has.
macro_rules! of_a_move {
    ($more:literal) => {
        of_a_position!("\
A move has its house, the position after it, and again, turn or over:
    1 1,1/0 0,2/0 turn
", $more, "`kalah --help` has the rules and the meaning of these words.")
    };
}

// What an answer line of this subcommand is, and then what its files may be, and which form of `ask` answers the same.
macro_rules! of_files {
    ($name:literal, $asked:literal, $answers:literal) => {
        concat!("\
A FILE has one position a line, such as 1,1/0 1,1/0. Each line of each file gets
", $answers, "\
A FILE may be a pipe, or /dev/stdin for standard input:
    kalah ", $name, " /dev/stdin < positions.txt
If that is a socket or belongs to another user, use `kalah ", $asked, "`.
`kalah --help` has the form of positions, the rules, and the words of faults.")
    };
}

/// What follows the short help of the program, which `-h` prints.
pub(crate) const SHORT: &str =
    "`kalah --help` explains positions, the rules, answers and exit statuses.";

/// What follows the short help of a subcommand.
pub(crate) const SHORT_OF_SUBCOMMAND: &str =
    "`--help` has more; `kalah --help` has the rules and the form of positions.";

/// What the long help of the program begins with.
pub(crate) const ABOUT: &str = "\
Solve small positions of Kalah: the best house and the margin of best play

Examples:
  kalah show '3,3,3/0 3,3,3/0'  Draw this board, and what each move is worth
  kalah play '3,3,3/0 3,3,3/0'  Print the game that best play leads to from it
  kalah solve positions.txt     Solve each position of a file, one a line";

/// What follows the long help of the program: all that a newcomer has to know.
pub(crate) const LONG: &str = "\
A position is one line, seen by the player to move: the seeds in that player's
houses, a slash, the seeds in that player's store, a space, and the same for the
other player. On a command line it needs quotes. 1,2,3/4 5,6,7/8 is this board,
with the player to move at the bottom:
       7   6   5
   8               4
       1   2   3
Houses count from 1, and the last one lies next to its owner's store. A side has
1 to 6 houses. All houses together hold at most 31 seeds, a store at most 99.

The rules: on your turn, choose one of your houses with seeds in it. Take them
all out and sow them, one into each cell: your houses after it, your store, your
opponent's houses, your houses from 1 on, and so on round the board, but never
your opponent's store. If the last seed falls into your store, you move again.
If it falls into an empty house of yours (the one that you chose is empty, too),
and the house across has seeds, you capture it and all of these: they go to your
store. The game is over when the houses of one player are all empty. Seeds left
in houses go to their owner's store.
A line that ends in ` e`, such as 1,1/0 1,1/0 e, is played under the
empty-capture rule: you capture a last seed in an empty house of yours even if
the house across is empty.

Answers. `solve`, `values` and `steps` print FILE:LINE before each of them, and
`ask` prints the same alone:
  MARGIN house H    `solve`: the margin of best play, and the lowest-numbered
                    best house
  H:V H:V ..        `values`: each house H that may be moved, and the margin V
                    that its move gets in best play
  H POSITION again  `steps`, `moves`, `play`: the move of house H, and the
                    position after it; the same player moves again
  H POSITION turn   the other player is to move, and the position is seen by
                    that player
  H POSITION over   the game is over after the move
  H N, total N      `count`: the ways that begin with house H, and all ways
  MARGIN over       the game is over, with this margin
  fault WORD        not a position
A margin is what the player to move ends with, less what the other player ends
with. `kalah COMMAND --help` has more about each command.

The WORD of a line that is not a position is the first of these that holds:
  long    it has more than 80 bytes
  empty   it has no bytes
  shape   it does not have the form of a position
  houses  the sides have different numbers of houses, or more than 6
  seeds   the houses hold more than 31 seeds together

Exit status: 0 if every line was read or help was printed; 1 if some line was
not read; 2 if the arguments, a file, standard input, memory, a worker or the
output failed, and standard error says which.
More: `man kalah`, and README.md, which lists the pages (in share/doc/kalah).
`python3 -m kalah` lists the tools in Python, for engines, games and puzzles.";

pub(crate) const LONG_OF_MOVES: &str = of_a_move!("");

pub(crate) const LONG_OF_PLAY: &str = of_a_move!(
    "\
With --first H the first line is the move of house H. It fails if that house
can't be moved. With --values each line ends in the value of the position that
its move was made in: the margin of best play, seen by the player who moves:
    1 1,1/0 0,2/0 turn 2
"
);

pub(crate) const LONG_OF_SHOW: &str = of_a_position!(
    "\
The player to move sits at the bottom, with houses from left to right, and below
each house stands the margin that its move gets in best play:
       3   3   3
   0               0
       3   3   3
       2   2  -4
Nothing stands below a house that can't be moved. If the game is over, the last
line has its margin:
    over, margin 3
A margin below -99 fills its column and touches the one before it.
With --lines a line for each house that can be moved follows, the best first:
the house, its margin, and the houses that are moved from it on, up to the end
of the game, if best play follows:
    2  2  2 1 1 1 2 2 3 2 2 3 1 3 3 1 2 3
`kalah --help` has the rules and the form of positions."
);

pub(crate) const LONG_OF_COUNT: &str = "\
A way is a sequence of exactly DEPTH moves that the rules allow, one after the
other, from the position on. A game that is over has no further move. Each house
that may be moved first gets a line, with the number of ways that begin with its
move, and the last line has their sum. For kalah count 2 '1,1/0 1,1/0':
    1 2
    2 1
    total 3
With DEPTH 0 there is one way, which has no move: total 1.
A position is one argument, so it needs quotes.
`kalah --help` has the rules and the form of positions.";

pub(crate) const LONG_OF_SOLVE: &str = of_files!(
    "solve",
    "ask",
    "\
an answer line, in order:
    first.txt:1 2 house 2      the margin of best play, and the lowest-numbered
                               best house
    first.txt:5 -4 over        the game is over, with this margin
    first.txt:9 fault shape    not a position
An early hard line holds back all later answers.
"
);

pub(crate) const LONG_OF_VALUES: &str = of_files!(
    "values",
    "ask --values",
    "\
an answer line, in order:
    first.txt:1 1:-2 2:2       each house that may be moved, and its margin
    first.txt:5 -4 over        the game is over, with this margin
    first.txt:9 fault shape    not a position
"
);

pub(crate) const LONG_OF_ASK: &str = "\
Each line of standard input is a position, such as 1,1/0 1,1/0, and gets an
answer line before the next line is read. So a program can ask for positions one
by one:
    2 house 2      by default: the margin of best play, and the lowest-numbered
                   best house
    1:-2 2:2       with --values: each house that may be moved, and its margin
    1 1,1/0 0,2/0 turn; 2 1,0/1 1,1/0 again
                   with --steps: the moves as `steps` prints them; no --values
                   or --table goes with it
    -4 over        the game is over, with this margin
    fault shape    not a position
`kalah --help` has the form of positions, the rules, and the words of faults.";

pub(crate) const LONG_OF_STEPS: &str = of_files!(
    "steps",
    "ask --steps",
    "\
a line for each house that may be moved, or one line, in order:
    first.txt:1 1 1,1/0 0,2/0 turn  the house, the position after its move, and
                                    again, turn or over
    first.txt:5 -4 over             the game is over, with this margin
    first.txt:9 fault shape         not a position
"
);

/// The error for options of `ask` that exclude each other.
pub(crate) const CONFLICT: &str = "\
error: the argument '--steps' cannot be used with '--values' or '--table <N>'

Usage: kalah ask [OPTIONS]

For more information, try '--help'.
";
