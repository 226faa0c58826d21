//! How large a position may be.
ghost use Rattle.std.specs.Prelude.{◌≡◌};
ghost use Rattle.kalah_rules.specs.Limits.{most_depth, most_houses, most_in_play, most_in_store, most_seeds};

/// The most houses that a side has.
pub const MOST_HOUSES: u8 = 6;

/// The most seeds in the houses of both players together.
pub const MOST_SEEDS: u8 = 31;

/// The most seeds in a store of a position that is written down.
pub const MOST_IN_STORE: u8 = 99;

/// The most seeds in a store in play: all seeds in houses may come to it.
pub const MOST_IN_PLAY: u8 = MOST_IN_STORE + MOST_SEEDS;

/// The most moves of the ways to play on that are counted.
pub const MOST_DEPTH: u8 = 20;

/// The limits of a position, as numbers. A law over the definitions that contracts cite.
pub fn limits_of_positions()
    ensures houses { most_houses ≡ 6 }
    ensures seeds { most_seeds ≡ 31 }
    ensures in_store { most_in_store ≡ 99 }
    ensures in_play { most_in_play ≡ 130 }
    ensures depth { most_depth ≡ 20 }
{}
