//! The desk: its passes draw the numbers below a total from one word, each number once.
ghost use Rattle.std.specs.Prelude.{◌≡◌, ◌+◌, ◌<◌, ◌≤◌, ◌↔◌, [], ◌∷◌, ◌++◌, length, true, false, All, IfOk, IfSome, IfNone, IsTrue};
ghost use Rattle.kalah_jobs.specs.Limits.{most_lines};
ghost use Rattle.kalah_run.specs.{Limits.{most_passes}, Desk.{Rows.{drawn_row, spent_in, DealsEachOnce}, States.{IsPassAt, AreNewPasses, drawn_rows}}};

pub(crate) mod pass;
pub(crate) mod protocol;

use crate::desk::pass::Pass;
use crate::desk::protocol::{
    DeskPlan, DeskProtocol, DeskView, DrawNumber, DrawRest, HandOut, Reclaim, StartClosing,
};
use atomic_table::Table as AtomicTable;
use std::alloc::{AllocError, Global};
use std::marker::Model;

#[cfg(test)]
mod tests;

/// Deals the numbers below a total, each once, to the passes that draw them. Contracts see it as its identity, its total and its number
/// of passes.
#[derive(Drop)]
pub struct Desk {
    table: AtomicTable<(), DeskView, DeskPlan, DeskProtocol, Global>,
    total: u32,
}

impl Model for Desk {
    ghost use Rattle.std.specs.Prelude.{◌≡◌, ◌≤◌};
    ghost use Rattle.kalah_run.specs.Desk.States.{DeskState};
    ghost use Rattle.kalah_jobs.specs.Limits.{most_lines};

    ghost Value = { DeskState };

    ghost view = { λ d. record { id = d.table.shared.table_id; total = d.total; passes = d.table.shared.key.passes } };

    ghost invariant = { λ d. (d.table.shared.table_id.words ≡ 1) × (d.table.shared.table_id.slots ≡ 0)
        × (d.table.shared.key.total ≡ d.total) × (d.total ≤ most_lines) };
}

/// The result of a desk that is closed.
#[derive(Clone, Copy, Debug, PartialEq, Eq)]
pub struct ClosedDesk {
    drawn: u32,
    spent: bool,
}

impl Desk {
    /// Opens a desk for the numbers below `total`, at most 1,000,000, with `passes` passes, at most 65. Each has an empty row, and none is
    /// spent. Fails with `AllocError` only if memory was refused.
    #[tactic(auto, using(crate::proofs::DeskLemmas::opening_is_lawful))]
    pub fn open(alloc: Global, total: u32, passes: u32) -> Result<(Desk, Vec<Pass>), AllocError>
        requires total { total ≤ most_lines }
        requires passes { passes ≤ most_passes }
        ensures desk { IfOk result (λ r. (r.0.total ≡ total) × (r.0.passes ≡ passes)) }
        ensures passes { IfOk result (λ r. AreNewPasses r.0 passes r.1.items) }
    {
        let plan = DeskPlan { total, passes };
        let (table, mut opener) = AtomicTable::of_words(alloc, &[0], &plan)?;
        let mut handed_out = Vec::with_capacity(alloc, passes as usize)?;
        for _ in 0..passes {
            let seat = table.shared.split_seat::<HandOut>(&mut opener);
            handed_out.push_reserved(Pass {
                seat,
                is_spent: false,
            });
        }
        Ok((Desk { table, total }, handed_out))
    }

    /// Draws a number below the total, which goes to the end of the pass's row and stands in no other row. Returns `None` if none is left;
    /// then the pass is spent and its row stays. A spent pass does not step on the word again, and every later draw returns `None`. A draw
    /// is one step on the word: it allocates nothing and never blocks.
    pub fn draw(&self, pass: &mut Pass) -> Option<u32>
        requires { IsPassAt self.now pass.old }

        // It stays a pass of this desk, under its number.
        ensures own { IsPassAt self.now pass.new }
        ensures number { pass.new.number ≡ pass.old.number }

        // Some: the number ends the row, and is above all earlier ones there.
        ensures unspent { IfSome result (λ n. pass.old.row.spent ≡ false) }
        ensures drawn { IfSome result (λ n. pass.new.row ≡ drawn_row (pass.old.row.numbers ++ n ∷ []) false) }
        ensures below { IfSome result (λ n. n < self.now.total) }
        ensures above { IfSome result (λ n. All (λ x. x < n) pass.old.row.numbers) }

        // None: the row stays, and the pass is spent.
        ensures spent { IfNone result (pass.new.row ≡ drawn_row pass.old.row.numbers true) }
        // In either case the total is within its limit.
        ensures limit { self.now.total ≤ most_lines }
    {
        // Read before the return, for the clause `limit`: reading the field proves its limit.
        let total = self.total;
        if pass.is_spent {
            return None;
        }
        let found = self
            .table
            .shared
            .fetch_add::<DrawNumber>(&mut pass.seat, 0, 1);
        if found < total as u64 {
            return Some(found as u32);
        }
        pass.is_spent = true;
        None
    }

    /// Draws all numbers that are left, so that none is left for any other pass. Then the pass is spent. Returns how many these are.
    #[cold]
    #[inline(never)]
    pub(crate) fn draw_rest(&self, pass: &mut Pass) -> u32
        requires { IsPassAt self.now pass.old }
        ensures own { IsPassAt self.now pass.new }
        ensures number { pass.new.number ≡ pass.old.number }
        ensures spent { pass.new.row.spent ≡ true }
        ensures drawn { length pass.new.row.numbers ≡ length pass.old.row.numbers + result }
    {
        if pass.is_spent {
            return 0;
        }
        let total = self.total as u64;
        let found = self
            .table
            .shared
            .fetch_max::<DrawRest>(&mut pass.seat, 0, total);
        let mut drawn = total.saturating_sub(found) as u32;
        // A draw finds none, so the pass is spent. It is a loop, since the contract of `draw` doesn't promise that.
        while self.draw(pass).is_some() {
            drawn += 1;
        }
        drawn
    }

    /// Closes the desk, which reclaims all its passes. Returns how many numbers were drawn, and whether some pass is spent: if one is, all
    /// numbers below the total were drawn. Each number below the count of those drawn stands in one row, once, and no other stands in any.
    /// Each row ascends.
    #[tactic(auto, using(crate::proofs::DeskLemmas::reclaim_is_lawful))]
    pub fn close(self, passes: Vec<Pass>) -> ClosedDesk
        requires all { length passes.items ≡ self.passes }
        requires own { All (IsPassAt self) passes.items }

        // The rows, pass by pass, in the order handed in.
        ensures deals { DealsEachOnce self.total result.drawn (drawn_rows passes.items) }
        ensures spent { IsTrue result.spent ↔ (0 < spent_in (drawn_rows passes.items)) }
    {
        let Desk { table, total } = self;
        let (_, mut closer) = table.shared.load_new_seat::<StartClosing>(0);
        let mut rest = passes;
        while let Some(pass) = rest.pop() {
            table.shared.join_seat::<Reclaim>(&mut closer, pass.seat);
        }
        let closed = table.close_with(closer);
        let word = closed.word(0);
        closed.free();
        ClosedDesk {
            drawn: word.min(total as u64) as u32,
            spent: word > total as u64,
        }
    }
}

impl ClosedDesk {
    /// Returns the number of numbers drawn.
    pub fn drawn(&self) -> u32
        ensures { result ≡ self.now.drawn }
    {
        self.drawn
    }

    /// Returns whether a draw of some pass returned `None`, so that all numbers below the total were drawn.
    pub fn spent(&self) -> bool
        ensures { result ≡ self.now.spent }
    {
        self.spent
    }
}
