//! Bounds on the number of seeds that a player wins.
ghost use Rattle.std.specs.Prelude.{◌≡◌, max, min, ◌≤◌, ◌≤ℤ◌, ◌+ℤ◌, ℕ, ℤ, pos};
ghost use Rattle.kalah_rules.specs.{Limits.{most_seeds}, Position.{total_seeds}};
ghost use Rattle.kalah_solve.specs.Bounds.Intervals.{Encloses, IsHalf, clamped, margin_of};

use crate::bounds::interval::Interval;
use crate::bounds::window::Window;
use kalah_rules::{Houses, MOST_SEEDS};

/// Bounds on the number of seeds in houses that a player wins, both inclusive.
#[derive(Clone, Copy)]
pub(crate) struct SeedBounds {
    pub(crate) least: u8,
    pub(crate) most: u8,
    ghost few: { most ≤ most_seeds },
}

/// Returns how many of `seeds` seeds a player wins who has this margin: half of both together, rounded down, or 0 if that is negative.
pub(crate) fn won_of(margin: i32, seeds: u8) -> u8
    requires { (margin +ℤ pos seeds) ≤ℤ pos 255 }
    ensures { IsHalf (margin +ℤ pos seeds) result }
{
    let number = margin + seeds as i32;
    if number <= 0 { 0 } else { number as u8 / 2 }
}

/// Returns the margin of a player who wins `won` of `seeds` seeds.
#[inline(always)]
pub(crate) fn margin_of(won: u8, seeds: u8) -> i32
    ensures { result ≡ margin_of won seeds }
{
    2 * won as i32 - seeds as i32
}

impl SeedBounds {
    ghost use Rattle.kalah_solve.specs.Bounds.Won.{won, IsWithinBounds};

    /// Returns what the mover can win of the seeds in these houses.
    #[tactic(auto, using(crate::proofs::BoundsLemmas::won_of_houses))]
    pub(crate) fn unknown(houses: &Houses) -> SeedBounds
        ensures least { result.least ≡ 0 }
        ensures most { result.most ≡ total_seeds houses.now }
        ensures held { IsWithinBounds result (won houses.now) }
    {
        SeedBounds {
            least: 0,
            most: houses.seeds(),
        }
    }

    /// Returns the bounds of what is won of `seeds` seeds that a window of margins distinguishes.
    pub(crate) fn of_window(window: Window, seeds: u8) -> SeedBounds
        requires { seeds ≤ most_seeds }
        ensures ordered { result.least ≤ result.most }
        ensures apart { (t : ℕ) → t ≤ seeds → clamped window.lo window.hi (margin_of (max result.least (min result.most t)) seeds)
            ≡ clamped window.lo window.hi (margin_of t seeds) }
    {
        SeedBounds {
            least: won_of(window.lo, seeds),
            most: won_of(window.hi + 1, seeds),
        }
    }

    /// Returns the bounds of what is won of `seeds` seeds that a margin in the interval allows.
    pub(crate) fn of_margins(interval: Interval, seeds: u8) -> SeedBounds
        requires { seeds ≤ most_seeds }
        ensures held { (t : ℕ) → t ≤ seeds → Encloses interval (margin_of t seeds) → IsWithinBounds result t }
        ensures only { pos 0 ≤ℤ (interval.hi +ℤ pos seeds)
            → (t : ℕ) → t ≤ seeds → IsWithinBounds result t → Encloses interval (margin_of t seeds) }
    {
        SeedBounds {
            least: won_of(interval.lo as i32 + 1, seeds),
            most: won_of(interval.hi as i32, seeds).min(MOST_SEEDS),
        }
    }

    /// Returns the margins of what is won of `seeds` seeds within these bounds.
    pub(crate) fn margins(self, seeds: u8) -> Interval
        requires { seeds ≤ most_seeds }
        ensures held { (t : ℕ) → t ≤ seeds → IsWithinBounds self t → Encloses result (margin_of t seeds) }
        ensures only { self.least ≤ seeds
            → (t : ℕ) → t ≤ seeds → Encloses result (margin_of t seeds) → IsWithinBounds self t }
    {
        let least = self.least.min(MOST_SEEDS);
        Interval {
            lo: margin_of(least, seeds) as i8,
            hi: margin_of(self.most, seeds) as i8,
        }
    }
}
