//! Laws over all positions, all strategies and both rules of capture.
ghost use Rattle.kalah_solve.specs.Solver.{Laws.{WorthOfOver, WorthIsGreatestValue, WorthIsMostOfMoves, GameThatGoesOnHasMove, CountPlaysNoPart, BestHouseIsLowest, StoresShiftWorth, StoresKeepBestHouse, StrategiesPlayAGame, StrategiesPlayOneGame, GamesEnd, WorthIsBestPlay, BestPlayIsOne, BestHouseIsBestPlay, BestPlayAgainstStrategies, BestMovesAttain, BestVerdictIsOne}, MoveValues.{ValueIsWorthOfMove, WorthOfMoveIsOne, ValuesTellVerdict}};

/// The worth of a game that is over is its final margin. That of any other position is the greatest value of a legal move. Such a
/// position has at least one legal move.
#[tactic(auto, using(crate::proofs::WorthLemmas::worth_is_greatest_value))]
pub fn worth_is_greatest_value()
    ensures over { WorthOfOver }
    ensures going { WorthIsGreatestValue }
    ensures most { WorthIsMostOfMoves }
    ensures moves { GameThatGoesOnHasMove }
    ensures count { CountPlaysNoPart }
{}

/// The best house of a game that goes on is the lowest-numbered legal house whose value is the worth of the position.
pub fn best_house_is_lowest()
    ensures { BestHouseIsLowest }
{}

/// Stores do not influence play. The worth of a position is the difference of the stores plus the worth of its houses with empty stores.
/// The best house is the same for any stores.
#[tactic(auto, using(crate::proofs::WorthLemmas::worth_by_stores, crate::proofs::WorthLemmas::best_of_houses))]
pub fn stores_only_shift()
    ensures worth { StoresShiftWorth }
    ensures house { StoresKeepBestHouse }
{}

/// Two players that follow strategies play a game to its end, and only one. No game by the rules has more moves than
/// `moves_left`, and each ends in a position that is over.
#[tactic(auto, using(crate::proofs::SolverLemmas::players_play_one_game))]
pub fn players_play_one_game()
    ensures game { StrategiesPlayAGame }
    ensures one { StrategiesPlayOneGame }
    ensures end { GamesEnd }
{}

/// The worth of a position is the margin of best play. The player to move has a strategy that gets at least as much against any play of
/// the opponent, who has one that allows no more. No other margin is both. Always moving the lowest-numbered best house is such a
/// strategy, for either player and in every position.
pub fn worth_is_best_play()
    ensures worth { WorthIsBestPlay }
    ensures one { BestPlayIsOne }
    ensures house { BestHouseIsBestPlay }
    ensures strategies { BestPlayAgainstStrategies }
{}

/// The moves that best play can begin with are the legal houses whose value is the worth of the position.
pub fn best_moves_attain_worth()
    ensures { BestMovesAttain }
{}

/// There is only one verdict of best play: any verdict that states it is the solver's.
#[tactic(auto, using(crate::proofs::SolverLemmas::best_verdict_is_one))]
pub fn best_verdict_is_one()
    ensures { BestVerdictIsOne }
{}

/// The value of a move is the margin of best play of the position after it, seen by the player who moved. No other margin is.
#[tactic(auto, using(crate::proofs::SolverLemmas::value_is_worth_of_move, crate::proofs::SolverLemmas::worth_of_move_is_one))]
pub fn value_is_worth_of_move()
    ensures worth { ValueIsWorthOfMove }
    ensures one { WorthOfMoveIsOne }
{}

/// In a game that goes on, the verdict is the greatest of the moves' values and the lowest-numbered house that has it.
#[tactic(auto, using(crate::proofs::SolverLemmas::values_tell_verdict))]
pub fn values_tell_verdict()
    ensures { ValuesTellVerdict }
{}
