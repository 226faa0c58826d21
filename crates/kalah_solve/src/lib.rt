//! The margin of best play of a position of Kalah, its lowest-numbered best house, the value of each move, and laws of best play.
#![tactic(auto)]

mod bounds;
mod house_set;
mod key;
mod search;
mod solver;
mod table;
#[cfg(test)]
mod tests;

pub use key::{pack, unpack};
pub use solver::laws::{
    best_house_is_lowest, best_moves_attain_worth, best_verdict_is_one, players_play_one_game,
    stores_only_shift, value_is_worth_of_move, values_tell_verdict, worth_is_best_play,
    worth_is_greatest_value,
};
pub use solver::move_values::{MoveValue, MoveValues};
pub use solver::{Solver, Verdict};
pub use table::{MOST_ENTRIES, Table, limit_of_tables};
