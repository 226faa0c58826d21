//! Turns that wait to be searched, the one with the highest priority first.
ghost use Rattle.std.specs.Prelude.{◌≡◌, ◌≤◌, ◌<◌, ◌%◌, ℕ, Contains, MatchOption, slice_index, slice_set};
ghost use Rattle.kalah_solve.specs.WaitingTurns.{ArePlaced, IsEmpty, IsTaken};

use kalah_rules::Houses;

/// Turns that wait to be searched, each with its priority and the houses that it leaves.
#[derive(Clone, Copy)]
pub(super) struct WaitingTurns {
    // Eight, which the processor compares at once; 0 where no turn waits.
    pub(super) priorities: [u16; 8],
    pub(super) turns: [Houses; 6],
    ghost placed: { ArePlaced priorities turns },
}

impl WaitingTurns {
    /// Returns no turns. Their places have these houses.
    #[inline(always)]
    pub(super) fn none(filler: Houses) -> WaitingTurns
        ensures { IsEmpty result.priorities }
    {
        WaitingTurns {
            priorities: [0; 8],
            turns: [filler; 6],
        }
    }

    /// Adds a turn that leaves these houses. Its priority modulo 8 is its place, 0 to 5.
    #[inline(always)]
    pub(super) fn add(&mut self, priority: u16, next: Houses)
        requires { priority % 8 < 6 }
        ensures priorities { self.new.priorities ≡ slice_set self.old.priorities (priority % 8) priority }
        ensures turns { self.new.turns ≡ slice_set self.old.turns (priority % 8) next }
    {
        let at = (priority % 8) as usize;
        self.priorities[at] = priority;
        self.turns[at] = next;
    }

    /// Takes out the turn with the highest priority, and returns what it leaves, or `None` if no turn waits.
    #[inline(always)]
    pub(super) fn take_highest(&mut self) -> Option<Houses>
        ensures taken { MatchOption result (IsEmpty self.old.priorities)
            (λ next. IsTaken self.old.priorities self.old.turns next self.new.priorities) }
        ensures turns { self.new.turns ≡ self.old.turns }
    {
        let priority = self.highest();
        if priority == 0 {
            return None;
        }
        let at = (priority % 8) as usize;
        self.priorities[at] = 0;
        Some(self.turns[at])
    }

    // Returns the highest priority. Unless it is 0, it names the place of a turn.
    fn highest(&self) -> u16
        ensures found { Contains self.now.priorities result }
        ensures highest { (k : ℕ) → slice_index self.now.priorities k ≤ result }
        ensures inside { 0 < result → result % 8 < 6 }
    {
        let mut most = self.priorities[0];
        for i in 1..8usize {
            most = most.max(self.priorities[i]);
        }
        most
    }
}
