//! The window of a search.
ghost use Rattle.std.specs.Prelude.{◌≡◌, ◌≤ℤ◌, ◌<ℤ◌, ℤ, IfSome, IsNone};
ghost use Rattle.kalah_solve.specs.Bounds.Intervals.{Encloses, from_to, least_margin, most_margin, clamped};

use crate::bounds::interval::{Interval, MOST_MARGIN};

/// The alpha-beta window: the margins that a search distinguishes. A worth below its lower end is reported as that
/// end, and a worth above its upper end as the upper end.
#[derive(Clone, Copy)]
pub struct Window {
    pub(crate) lo: i32,
    pub(crate) hi: i32,
    ghost low: { least_margin ≤ℤ lo },
    ghost ordered: { lo <ℤ hi },
    ghost high: { hi ≤ℤ most_margin },
}

impl Window {
    /// Returns the window of all margins that houses can have.
    pub fn whole() -> Window
        ensures lo { result.lo ≡ least_margin }
        ensures hi { result.hi ≡ most_margin }
    {
        Window {
            lo: -MOST_MARGIN as i32,
            hi: MOST_MARGIN as i32,
        }
    }

    /// Returns the margins in this window that the interval leaves open, or `None` if it determines the answer.
    pub fn narrowed(self, known: Interval) -> Option<Window>
        ensures within_known { IfSome result (λ narrow. (known.lo ≤ℤ narrow.lo) × (narrow.hi ≤ℤ known.hi)) }
        ensures some { IfSome result (λ narrow. (z : ℤ) → Encloses known z → clamped narrow.lo narrow.hi z ≡ clamped self.lo self.hi z) }
        ensures none { IsNone result → (z : ℤ) → Encloses known z → clamped self.lo self.hi known.lo ≡ clamped self.lo self.hi z }
    {
        let lo = self.lo.max(known.lo as i32);
        let hi = self.hi.min(known.hi as i32);
        if hi <= lo {
            None
        } else {
            Some(Window { lo, hi })
        }
    }

    /// Returns the margin, raised to the lower end and lowered to the upper one.
    pub fn clamp(self, margin: i32) -> i32
        ensures { result ≡ clamped self.lo self.hi margin }
    {
        margin.clamp(self.lo, self.hi)
    }

    /// Returns what the answer of a search in this window implies. An answer inside the window is the worth. One at its lower end is an
    /// upper bound, and one at its upper end a lower bound. The answer must be in the window, with its ends.
    pub fn interval_of(self, answer: i32) -> Interval
        requires least { self.lo ≤ℤ answer }
        requires most { answer ≤ℤ self.hi }
        ensures at_most { answer ≡ self.lo → result ≡ from_to least_margin self.lo }
        ensures at_least { answer ≡ self.hi → result ≡ from_to self.hi most_margin }
        ensures exact { self.lo <ℤ answer → answer <ℤ self.hi → result ≡ from_to answer answer }
        ensures held { (z : ℤ) → least_margin ≤ℤ z → z ≤ℤ most_margin → answer ≡ clamped self.lo self.hi z → Encloses result z }
    {
        let margin = answer as i8;
        if answer <= self.lo {
            Interval {
                lo: -MOST_MARGIN,
                hi: margin,
            }
        } else if answer >= self.hi {
            Interval {
                lo: margin,
                hi: MOST_MARGIN,
            }
        } else {
            Interval {
                lo: margin,
                hi: margin,
            }
        }
    }
}
