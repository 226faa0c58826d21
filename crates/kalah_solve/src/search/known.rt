//! Bounds of houses: looked up before a search of them, and stored after it.
ghost use Rattle.kalah_rules.specs.Position.{AreWithinLimits};
ghost use Rattle.kalah_solve.specs.{Solver.Worth.{houses_worth}, Bounds.{Intervals.{Encloses}, Won.{won, IsWithinBounds}}};

use crate::bounds::interval::Interval;
use crate::bounds::seed_bounds::SeedBounds;
use crate::search::Search;
use kalah_rules::Houses;
use std::alloc::Allocator;

impl<A: Allocator + Clone> Search<A> {
    /// Returns an interval that holds the worth of the houses.
    #[tactic(auto, using(crate::proofs::BoundsLemmas::worth_low, crate::proofs::BoundsLemmas::worth_high))]
    pub(super) fn known_margins(&mut self, houses: &Houses) -> Interval
        requires { AreWithinLimits houses.now }
        ensures { Encloses result (houses_worth houses.now) }
    {
        match self.table.look_up(houses) {
            Some(interval) => interval,
            None => Interval::whole(),
        }
    }

    /// Returns what is known of the seeds that the mover wins.
    pub(super) fn known_seeds(&mut self, houses: &Houses) -> SeedBounds
        ensures { IsWithinBounds result (won houses.now) }
    {
        if houses.seeds() <= self.most_slot_seeds {
            self.table.slots.look_up(houses)
        } else {
            self.known_by_entry(*houses)
        }
    }

    // Returns what the entries know of the seeds that the mover wins.
    #[inline(never)]
    #[tactic(auto, using(crate::proofs::BoundsLemmas::won_of_houses, crate::proofs::BoundsLemmas::worth_of_won))]
    fn known_by_entry(&mut self, houses: Houses) -> SeedBounds
        ensures { IsWithinBounds result (won houses) }
    {
        match self.table.look_up(&houses) {
            Some(margins) => SeedBounds::of_margins(margins, houses.seeds()),
            None => SeedBounds::unknown(&houses),
        }
    }

    /// Stores what was learned of the houses in this many nodes.
    #[tactic(auto, using(crate::proofs::BoundsLemmas::won_of_houses, crate::proofs::BoundsLemmas::worth_of_won))]
    pub(super) fn learn_seeds(&mut self, houses: &Houses, bounds: SeedBounds, nodes: u64)
        requires { IsWithinBounds bounds (won houses.now) }
    {
        let seeds = houses.seeds();
        if seeds <= self.most_slot_seeds {
            self.table.slots.keep(houses, bounds);
        } else {
            self.learn_margins(*houses, bounds.margins(seeds), nodes);
        }
    }

    /// Stores what was learned of their worth as an entry, unless it took too few nodes.
    pub(super) fn learn_margins(&mut self, houses: Houses, interval: Interval, nodes: u64)
        requires { Encloses interval (houses_worth houses) }
    {
        if nodes >= self.least_entry_nodes {
            self.table.keep(&houses, interval);
        }
    }
}
