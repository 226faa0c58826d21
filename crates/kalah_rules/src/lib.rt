//! The rules of Kalah: boards, moves, captures and the end of a game.
#![tactic(auto)]

mod board;
mod houses;
mod laws;
mod limits;
mod moves;
mod rule;
mod step;
#[cfg(test)]
mod tests;
mod ways;

pub use board::Board;
pub use houses::Houses;
pub use houses::house::House;
pub use houses::house_row::HouseRow;
pub use houses::numbers::{ONE_EACH, one_each};
pub use houses::sowing_table::SowingTable;
pub use laws::{every_move_nears_end, sowing_is_seed_by_seed};
pub use limits::{
    MOST_DEPTH, MOST_HOUSES, MOST_IN_PLAY, MOST_IN_STORE, MOST_SEEDS, limits_of_positions,
};
pub use moves::Moves;
pub use rule::Rule;
pub use step::{HousesStep, Step};
