//! Laws on the games that `play` and `show --lines` print.
ghost use Rattle.kalah_cli.specs.Commands.Game.{PlaysBestGames, VariationsEndWithTheirValue};

/// From each position `play` prints a game of best play: both players always move the lowest-numbered best house, to the end, with the
/// margin of best play.
#[tactic(auto, using(crate::proofs::GameLemmas::plays_best_games))]
pub fn plays_best_games()
    ensures { PlaysBestGames }
{}

/// A game that begins with any legal move and goes on with best play ends with the value of that move. A line of `show --lines` has such a
/// game, and `play --first` prints one.
pub fn variations_end_with_their_value()
    ensures { VariationsEndWithTheirValue }
{}
