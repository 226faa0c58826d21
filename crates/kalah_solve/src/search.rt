//! The search: fail-soft alpha-beta with null windows. Each test asks whether the mover wins at least `beta` seeds, and `won_within` closes
//! in on the number by such tests, as an MTD driver does. Margins are used at the root and among the entries.
ghost use Rattle.std.specs.Prelude.{◌≡◌, ◌↔◌, ℕ, ◌+◌, ◌-◌, ◌≤◌, ◌<◌, false, IsTrue, max, min, Contains};
ghost use Rattle.kalah_rules.specs.{Position.{is_over, storeless, total_seeds}, Sowing.{EndsDirectlyInStore}, Play.{legal_houses}, HousesStep.{houses_step}, Key.{variant_of}};
ghost use Rattle.kalah_solve.specs.{Solver.Worth.{houses_worth}, Bounds.{Intervals.{clamped}, Won.{won, won_by_step}}, WaitingTurns.{IsEmpty}, Search.{IsSoftBound, WinsAtMost, AreWaiting, IsOngoing, IsStepInVariant, GoesOnAt}};

mod growth;
mod known;
pub(crate) mod move_order;
mod node_counts;
#[cfg(test)]
mod tests;
mod waiting_turns;

use crate::bounds::interval::Interval;
use crate::bounds::seed_bounds::{SeedBounds, margin_of};
use crate::bounds::window::Window;
use crate::house_set::HouseSet;
use crate::search::move_order::MoveOrder;
use crate::search::node_counts::{NodeCounts, SEEDS_THAT_ALWAYS_PAY};
use crate::search::waiting_turns::WaitingTurns;
use crate::table::Table;
use kalah_rules::{House, Houses, HousesStep};
use std::alloc::{Allocator, Global};

/// Bounds that the search finds on its way go into slots if the houses have at most this many seeds. All others, and those of houses that
/// were asked for, go among the entries.
const MOST_SLOT_SEEDS: u8 = 24;

/// An answer that took fewer nodes is not worth an entry.
const LEAST_ENTRY_NODES: u64 = 60;

// Calls a method that has the number of the variant of some houses as its constant parameter. It is compiled for each variant. The number
// is that of houses a side, and 8 more under the empty-capture rule; in the last arm it is 14.
macro_rules! in_its_variant {
    ($self:ident.$method:ident($houses:ident, $($more:expr),*)) => {
        match $houses.variant() {
            1 => $self.$method::<1>($houses, $($more),*),
            2 => $self.$method::<2>($houses, $($more),*),
            3 => $self.$method::<3>($houses, $($more),*),
            4 => $self.$method::<4>($houses, $($more),*),
            5 => $self.$method::<5>($houses, $($more),*),
            6 => $self.$method::<6>($houses, $($more),*),
            9 => $self.$method::<9>($houses, $($more),*),
            10 => $self.$method::<10>($houses, $($more),*),
            11 => $self.$method::<11>($houses, $($more),*),
            12 => $self.$method::<12>($houses, $($more),*),
            13 => $self.$method::<13>($houses, $($more),*),
            _ => $self.$method::<14>($houses, $($more),*),
        }
    };
}

/// A search with its table. Its results depend on none of its limits.
#[derive(Drop)]
pub struct Search<A: Allocator + Clone = Global> {
    pub(crate) table: Table<A>,
    order: MoveOrder,
    // `MOST_SLOT_SEEDS`; 0 in a test that keeps all among the entries.
    most_slot_seeds: u8,
    // `LEAST_ENTRY_NODES`; 0 in such a test.
    least_entry_nodes: u64,
    counts: NodeCounts,
}

impl<A: Allocator + Clone> Search<A> {
    /// Makes a search with this table.
    pub fn new(table: Table<A>) -> Search<A>
        ensures { result.table ≡ table }
    {
        Search {
            table,
            order: MoveOrder::new(),
            most_slot_seeds: MOST_SLOT_SEEDS,
            least_entry_nodes: LEAST_ENTRY_NODES,
            counts: NodeCounts::new(),
        }
    }

    /// Makes a search that keeps every answer among the entries of its table.
    #[cfg(test)]
    pub fn with_all_entries(table: Table<A>) -> Search<A> {
        Search {
            table,
            order: MoveOrder::new(),
            most_slot_seeds: 0,
            least_entry_nodes: 0,
            counts: NodeCounts::without_endings(),
        }
    }

    /// Returns how many nodes there were.
    #[cfg(test)]
    pub fn nodes(&self) -> u64 {
        self.counts.all_nodes()
    }

    /// Returns the worth of the houses, raised to the window's lower end and lowered to its upper one. That of an ending is looked up,
    /// and what is learned of others is kept as an entry of the table if it took enough nodes.
    pub fn clamped_worth(&mut self, houses: &Houses, window: Window) -> i32
        requires going { is_over (storeless houses.now) ≡ false }
        ensures { result ≡ clamped window.lo window.hi (houses_worth houses.now) }
    {
        in_its_variant!(self.clamped_in_variant(houses, window))
    }

    // As `clamped_worth`, for houses of this variant.
    fn clamped_in_variant<const VARIANT: u8>(&mut self, houses: &Houses, window: Window) -> i32
        requires { IsOngoing VARIANT houses.now }
        ensures { result ≡ clamped window.lo window.hi (houses_worth houses.now) }
    {
        let seeds = houses.seeds();
        // Fewer seeds are always looked up, and no nodes are counted for them.
        if seeds > SEEDS_THAT_ALWAYS_PAY {
            self.counts.resume(houses);
        }
        if seeds <= self.counts.ending_limit {
            let won = self.table.won::<VARIANT>(*houses);
            return window.clamp(margin_of(won, seeds));
        }
        self.clamped_by_tests::<VARIANT>(houses, window)
    }

    // Does the same for houses that are no ending that is looked up. Out of line, so that an ending takes few instructions.
    #[inline(never)]
    fn clamped_by_tests<const VARIANT: u8>(&mut self, houses: &Houses, window: Window) -> i32
        requires { IsOngoing VARIANT houses.now }
        ensures { result ≡ clamped window.lo window.hi (houses_worth houses.now) }
    {
        let seeds = houses.seeds();
        let known = self.known_margins(houses);
        let Some(narrow) = window.narrowed(known) else {
            return window.clamp(known.lo as i32);
        };
        let before = self.counts.nodes;
        let won = self.won_within::<VARIANT>(houses, SeedBounds::of_window(narrow, seeds));
        let answer = narrow.clamp(margin_of(won, seeds));
        let nodes = self.counts.nodes.saturating_sub(before);
        self.learn_margins(
            *houses,
            narrow.interval_of(answer).intersection(known),
            nodes,
        );
        answer
    }

    // Returns how many seeds the mover wins, raised to the least that is asked and lowered to the most. Tests close in on it, the first a
    // little above half of all.
    fn won_within<const VARIANT: u8>(&mut self, houses: &Houses, asked: SeedBounds) -> u8
        requires ongoing { IsOngoing VARIANT houses.now }
        requires ordered { asked.least ≤ asked.most }
        ensures { result ≡ max asked.least (min asked.most (won houses.now)) }
    {
        let houses = houses.in_variant::<VARIANT>();
        let mut low = asked.least;
        let mut high = asked.most;
        let mut beta = houses.seeds() / 2 + 1;
        while low < high {
            let asked_beta = beta.clamp(low + 1, high);
            let bound = self.bound_by_moves::<VARIANT>(&houses, asked_beta);
            if asked_beta <= bound {
                low = bound.min(high);
                beta = low + 1;
            } else {
                high = bound.max(low);
                beta = high;
            }
        }
        low
    }

    /// Returns whether the move of this house wins at least `beta` seeds.
    pub fn move_reaches(&mut self, houses: &Houses, house: House, beta: u8) -> bool
        requires legal { Contains (legal_houses (storeless houses.now)) house }
        ensures { IsTrue result ↔ beta ≤ won_by_step (houses_step houses.now house) }
    {
        in_its_variant!(self.move_reaches_in_variant(houses, house, beta))
    }

    // As `move_reaches`, for houses of this variant.
    #[tactic(auto, using(crate::proofs::WorthLemmas::goes_on))]
    fn move_reaches_in_variant<const VARIANT: u8>(
        &mut self,
        houses: &Houses,
        house: House,
        beta: u8,
    ) -> bool
        requires legal { Contains (legal_houses (storeless houses.now)) house }
        requires variant { variant_of houses.now ≡ VARIANT }
        ensures { IsTrue result ↔ beta ≤ won_by_step (houses_step houses.now house) }
    {
        let step = houses.play_with(&self.table.endings.sowings, house);
        beta <= self.bound_step::<VARIANT>(step, beta)
    }

    // Returns a fail-soft bound of how many seeds the mover wins: from `beta` on it is a lower bound, and below `beta` an upper one. An
    // ending is looked up, and of other houses the moves are searched.
    #[inline(always)]
    #[cycle(bound)]
    fn bound<const VARIANT: u8>(&mut self, houses: Houses, beta: u8) -> u8
        requires { IsOngoing VARIANT houses }
        ensures { IsSoftBound beta (won houses) result }
    {
        if houses.seeds() <= self.counts.ending_limit {
            return self.table.won::<VARIANT>(houses);
        }
        self.bound_by_search::<VARIANT>(&houses, beta)
    }

    // As `bound`, of houses that are not looked up as an ending. Returns what the table knows if that is enough. Otherwise tries the moves,
    // and keeps what is learned.
    #[cycle(bound)]
    #[inline(never)]
    fn bound_by_search<const VARIANT: u8>(&mut self, houses: &Houses, beta: u8) -> u8
        requires { IsOngoing VARIANT houses.now }
        ensures { IsSoftBound beta (won houses.now) result }
    {
        let houses = houses.in_variant::<VARIANT>();
        let known = self.known_seeds(&houses);
        if beta <= known.least {
            return known.least;
        }
        if known.most < beta {
            return known.most;
        }
        let before = self.begin_node();
        let bound = self.bound_by_moves::<VARIANT>(&houses, beta);
        let nodes = self.counts.nodes.saturating_sub(before);
        let mut learned = known;
        if beta <= bound {
            learned.least = bound;
        } else {
            learned.most = bound;
        }
        self.learn_seeds(&houses, learned, nodes);
        bound
    }

    // As `bound`, by trying the moves alone: first those that end in the store without a lap, then the others. A turn whose houses must be
    // searched waits until the rest is tried.
    #[inline(always)]
    #[cycle(bound)]
    fn bound_by_moves<const VARIANT: u8>(&mut self, houses: &Houses, beta: u8) -> u8
        requires { IsOngoing VARIANT houses.now }
        ensures { IsSoftBound beta (won houses.now) result }
    {
        let houses = *houses; // A copy, so that it stays in registers.
        let seeds = houses.seeds();
        let into_store = self.bound_into_store::<VARIANT>(&houses, beta);
        if beta <= into_store {
            return into_store;
        }
        let mut waiting = WaitingTurns::none(houses.without_seeds()); // A filler: in one variant it is a constant.
        let remaining = self.try_remaining::<VARIANT>(&houses, beta, &mut waiting);
        if beta <= remaining {
            return remaining;
        }
        let mut most = into_store.max(remaining);
        let reply_beta = seeds.saturating_sub(beta) + 1; // If the opponent wins less of the seeds, the turn is enough.
        while let Some(next) = waiting.take_highest() {
            let bound = seeds - self.bound_by_search::<VARIANT>(&next, reply_beta);
            if beta <= bound {
                return bound;
            }
            most = most.max(bound);
        }
        most
    }

    // Tries the moves that end in the store without a lap, the nearest to it first, until one wins enough. Returns a lower bound of what
    // that one wins, or else, below `beta`, an upper bound for all.
    #[inline(always)]
    #[cycle(bound)]
    fn bound_into_store<const VARIANT: u8>(&mut self, houses: &Houses, beta: u8) -> u8
        requires { IsOngoing VARIANT houses.now }
        ensures lower { beta ≤ result → result ≤ won houses.now }
        ensures upper { result < beta → (h : ℕ) → Contains (legal_houses (storeless houses.now)) h → EndsDirectlyInStore houses.now h →
            WinsAtMost houses.now result h }
    {
        let mut untried = HouseSet::ending_in_store(houses);
        let mut most = 0u8;
        while let Some(house) = untried.pop_last() {
            let bound = self.bound_step::<VARIANT>(houses.play_into_store(house), beta);
            if beta <= bound {
                return bound;
            }
            most = most.max(bound);
        }
        most
    }

    // Plays the remaining moves, each once, until one wins enough. Returns a lower bound of what that one wins, or else, below `beta`, an
    // upper bound for all that don't wait. The turns that must be searched are added to those that wait.
    #[inline(always)]
    #[cycle(bound)]
    fn try_remaining<const VARIANT: u8>(
        &mut self,
        houses: &Houses,
        beta: u8,
        waiting: &mut WaitingTurns,
    ) -> u8
        requires ongoing { IsOngoing VARIANT houses.now }
        requires none { IsEmpty waiting.old.priorities }
        ensures { AreWaiting houses.now beta result waiting.new.priorities waiting.new.turns }
    {
        let mut most = 0u8;
        let mut untried = HouseSet::remaining(houses);
        while let Some(house) = untried.pop_last() {
            let step = houses.play_with(&self.table.endings.sowings, house);
            if let HousesStep::Turn { gained, next } = step {
                if gained < beta && next.seeds() > self.counts.ending_limit {
                    let priority = self.order.priority(house, gained, &next);
                    waiting.add(priority, next);
                    continue;
                }
            }
            let bound = self.bound_step::<VARIANT>(step, beta);
            if beta <= bound {
                return bound;
            }
            most = most.max(bound);
        }
        most
    }

    // Returns a fail-soft bound of what a step wins.
    #[inline(always)]
    #[cycle(bound)]
    fn bound_step<const VARIANT: u8>(&mut self, step: HousesStep, beta: u8) -> u8
        requires on { IsStepInVariant VARIANT step }
        ensures { IsSoftBound beta (won_by_step step) result }
    {
        match step {
            HousesStep::Over { own, .. } => own,
            HousesStep::Again { gained, next } => {
                if beta <= gained {
                    gained
                } else {
                    gained + self.bound::<VARIANT>(next, beta - gained)
                }
            }
            // What the opponent wins of the next houses does not come to the mover.
            HousesStep::Turn { gained, next } => {
                let all = gained + next.seeds();
                if beta <= gained {
                    gained
                } else if all < beta {
                    all
                } else {
                    all - self.bound::<VARIANT>(next, all - beta + 1)
                }
            }
        }
    }
}
