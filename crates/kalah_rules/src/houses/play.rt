//! Moves on houses, by whole rows.
ghost use Rattle.std.specs.Prelude.{◌≡◌, ◌+◌, ◌-◌, ◌*◌, ◌<◌, ◌≤◌, ◌==◌, ◌&&◌, length, Contains, MatchBool};
ghost use Rattle.kalah_rules.specs.{Position.{storeless, seeds, AreWithinLimits}, Lap.{HoldsSeeds}, Play.{legal_houses}, Sowing.{captures, after, moves_again, EndsDirectlyInStore}, SowingTable.{IsSowing}};

use crate::houses::Houses;
use crate::houses::house::House;
use crate::houses::numbers::{OTHER_ROW_UNIT, into_store, seeds_at};
use crate::houses::sowing_table::{Sowing, SowingTable};
use crate::rule::Rule;
use crate::step::HousesStep;

/// Both rows of a position as in a key, and the number of seeds in its own store.
#[derive(Clone, Copy)]
pub(super) struct RowNumbers {
    rows: u64,
    store: u32,
}

// What the last seed captures: the seeds to take off both rows, and their number.
#[derive(Clone, Copy)]
struct Captured {
    seeds: u64,
    count: u64,
}

// Returns what the last seed captures, which may be nothing. It captures if it is alone in an own house (`single`) and the rule lets it
// capture the `across` seeds of the house across. That is hard to predict, so both numbers are masked, without a branch.
#[inline(always)]
fn captured_seeds(rule: Rule, single: bool, across: u64, seeds: u64) -> Captured
    requires { across < 32 }
    ensures captured { MatchBool (single && captures rule across)
        ((result.seeds ≡ seeds) × (result.count ≡ 1 + across)) ((result.seeds ≡ 0) × (result.count ≡ 0)) }
    ensures few { result.count ≤ 32 }
{
    let allows = rule.captures(across as u8);
    // All bits if the seeds are captured, otherwise none.
    let mask = 0u64.wrapping_sub(u64::from(single & allows));
    Captured {
        seeds: seeds & mask,
        count: (1 + across) & mask,
    }
}

impl Houses {
    ghost use Rattle.kalah_rules.specs.{Fields.{ShowsPosition}, HousesStep.{houses_step}};

    // Returns the rows after the move of this house: those of its sowing, less what the last seed captures.
    #[inline(always)]
    fn after(&self, house: House, sowing: Sowing) -> RowNumbers
        requires holds { HoldsSeeds (storeless self.now) house }
        requires sowing { IsSowing (length self.now.own) house (seeds self.now.own house) sowing }
        ensures { ShowsPosition result (after (storeless self.now) house) }
    {
        let rows = self.rows.wrapping_sub(sowing.loses);
        let single = rows & sowing.last_mask == sowing.last_seed;
        let across = (rows >> sowing.across_bit) % 32;
        let at_stake = sowing.last_seed + (across << sowing.across_bit);
        let captured = captured_seeds(self.rule(), single, across, at_stake);
        RowNumbers {
            rows: rows - captured.seeds,
            store: sowing.store as u32 + captured.count as u32,
        }
    }

    /// Plays a house of the mover, which must be legal and whose last seed must fall into the store without a lap. The result is that
    /// of `play`, computed with less work.
    #[inline(always)]
    pub fn play_into_store(&self, house: House) -> HousesStep
        requires legal { Contains (legal_houses (storeless self.now)) house }
        requires ends { EndsDirectlyInStore self.now house }
        ensures { result ≡ houses_step self.now house }
    {
        let rows = self.rows.wrapping_add(into_store(self.m(), house));
        let seeds = self.seeds - 1;
        if rows % OTHER_ROW_UNIT > 0 {
            return HousesStep::Again {
                gained: 1,
                next: Houses {
                    rows,
                    seeds,
                    variant: self.variant,
                },
            };
        }
        HousesStep::Over {
            own: 1,
            other: seeds as u8,
        }
    }

    // Returns the step of this house, from the rows after its move and whether it moves again.
    #[inline(always)]
    fn step(&self, house: House, rows: RowNumbers, again: bool) -> HousesStep
        requires legal { Contains (legal_houses (storeless self.now)) house }
        requires rows { ShowsPosition rows (after (storeless self.now) house) }
        requires again { again ≡ moves_again (storeless self.now) house }
        ensures { result ≡ houses_step self.now house }
    {
        let seeds = self.seeds - rows.store;
        let gained = rows.store as u8;
        let own = rows.rows % OTHER_ROW_UNIT;
        let other = rows.rows / OTHER_ROW_UNIT;
        if own == 0 {
            return HousesStep::Over {
                own: gained,
                other: seeds as u8,
            };
        }
        if other == 0 {
            return HousesStep::Over {
                own: self.seeds(),
                other: 0,
            };
        }
        if again {
            HousesStep::Again {
                gained,
                next: Houses {
                    rows: rows.rows,
                    seeds,
                    variant: self.variant,
                },
            }
        } else {
            HousesStep::Turn {
                gained,
                next: Houses {
                    rows: other + OTHER_ROW_UNIT * own,
                    seeds,
                    variant: self.variant,
                },
            }
        }
    }

    // Plays this house, whose seeds are sown so.
    #[inline(always)]
    fn play_sown(&self, house: House, sowing: Sowing) -> HousesStep
        requires legal { Contains (legal_houses (storeless self.now)) house }
        requires sowing { IsSowing (length self.now.own) house (seeds self.now.own house) sowing }
        ensures { result ≡ houses_step self.now house }
    {
        self.step(house, self.after(house, sowing), sowing.again)
    }

    /// Plays the mover's house `h`, which must be legal.
    ///
    /// Its seeds are sown one into each cell: the mover's houses after `h`, the mover's store, the opponent's houses,
    /// the mover's houses up to `h`, and round again. The opponent's store is skipped. If the last seed falls into the
    /// mover's store, the mover moves again. If it falls into an empty house of the mover, it captures as the rule says.
    /// If the houses of one player are then all empty, the game is over, and each player's houses are swept into that
    /// player's store.
    pub fn play(&self, h: u8) -> HousesStep
        requires { Contains (legal_houses (storeless self.now)) h }
        ensures step { result ≡ houses_step self.now h }
        ensures limits { AreWithinLimits self.now }
    {
        let sowing = Sowing::new(self.m(), h, self.own(h));
        self.play_sown(House::new(h), sowing)
    }

    /// Plays a house of the mover, which must be legal. The result is that of `play`, computed with less work.
    #[inline(always)]
    pub fn play_with(&self, sowings: &SowingTable, house: House) -> HousesStep
        requires { Contains (legal_houses (storeless self.now)) house }
        ensures step { result ≡ houses_step self.now house }
        ensures limits { AreWithinLimits self.now }
    {
        let count = seeds_at(self.own_row(), house) as u8;
        self.play_sown(house, sowings.get(self.m(), house, count))
    }
}
