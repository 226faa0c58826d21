//! Intervals of margins.
ghost use Rattle.std.specs.Prelude.{◌≡◌, ◌↔◌, ◌≤ℤ◌, ℤ};
ghost use Rattle.kalah_solve.specs.Bounds.Intervals.{Encloses, from_to, least_margin, most_margin};

use kalah_rules::MOST_SEEDS;

/// The greatest margin that houses can have, to one player or to the other.
pub(crate) const MOST_MARGIN: i8 = MOST_SEEDS as i8;

/// The numbers from `lo` to `hi`.
#[derive(Clone, Copy)]
pub(crate) struct Interval {
    /// The least number.
    pub(crate) lo: i8,
    /// The greatest number.
    pub(crate) hi: i8,
}

impl Interval {
    /// Returns the interval of all margins that houses can be worth.
    pub(crate) fn whole() -> Interval
        ensures value { result ≡ from_to least_margin most_margin }
        ensures held { (z : ℤ) → least_margin ≤ℤ z → z ≤ℤ most_margin → Encloses result z }
    {
        Interval {
            lo: -MOST_MARGIN,
            hi: MOST_MARGIN,
        }
    }

    /// Returns the numbers that are in both intervals.
    pub(crate) fn intersection(self, with: Interval) -> Interval
        ensures { (z : ℤ) → Encloses result z ↔ (Encloses self z × Encloses with z) }
    {
        Interval {
            lo: self.lo.max(with.lo),
            hi: self.hi.min(with.hi),
        }
    }
}
