//! The nodes of a search: how many it had of each variant, and which endings pay after them.
ghost use Rattle.std.specs.Prelude.{◌≤◌, ◌<◌};
ghost use Rattle.kalah_solve.specs.Table.EndingTable.{most_ending_seeds};

use crate::table::ending_table::MOST_ENDING_SEEDS;
use kalah_rules::Houses;

/// Endings of up to this many seeds pay in each variant from its first node on.
pub(super) const SEEDS_THAT_ALWAYS_PAY: u8 = 7;

// The nodes of a variant from which on all slots pay.
const NODES_FOR_ALL_SLOTS: u64 = 8_000;

// The nodes of a variant from which on endings of 8 seeds pay. The first look-up of an ending costs as much as a node, and with six
// houses a side there are 75,582 of 8 seeds.
const NODES_FOR_8_SEEDS: u64 = 42_000;

// The nodes of a variant from which on endings of 9 seeds pay, if houses with many seeds were asked about. There are 167,960 of 9 seeds.
const NODES_FOR_9_SEEDS: u64 = 120_000;

// Houses with this many seeds or more have many.
const MANY_SEEDS: u8 = 17;

/// The nodes of a search.
#[derive(Drop)]
pub(super) struct NodeCounts {
    // The variant that is searched: houses a side and rule, as in the upper bits of a key.
    variant: usize,
    /// The nodes of that variant so far.
    pub(super) nodes: u64,
    // The nodes of each variant when it was last left, by its number.
    nodes_before: [u64; 16],
    // The number of its nodes at which the search may grow next. Up to it, a node is only counted.
    next_threshold: u64,
    /// Endings with at most this many seeds pay, so they are looked up; 0 in a test without endings.
    pub(super) ending_limit: u8,
    // Whether houses with many seeds were asked about.
    seen_many_seeds: bool,
    ghost is_variant: { variant < 16 },
    ghost few: { ending_limit ≤ most_ending_seeds },
}

impl NodeCounts {
    /// Makes a count of no nodes.
    pub(super) fn new() -> NodeCounts {
        NodeCounts {
            variant: 0,
            nodes: 0,
            nodes_before: [0; 16],
            next_threshold: NODES_FOR_ALL_SLOTS,
            ending_limit: SEEDS_THAT_ALWAYS_PAY,
            seen_many_seeds: false,
        }
    }

    /// Makes a count of no nodes for a search that looks up no endings.
    #[cfg(test)]
    pub(super) fn without_endings() -> NodeCounts {
        let mut counts = NodeCounts::new();
        counts.ending_limit = 0;
        counts
    }

    /// Goes on with the variant of these houses, which are asked about.
    // Out of line, so that an ending takes few instructions.
    #[inline(never)]
    pub(super) fn resume(&mut self, houses: &Houses) {
        self.nodes_before[self.variant] = self.nodes;
        self.variant = houses.variant() as usize;
        self.nodes = self.nodes_before[self.variant];
        self.seen_many_seeds |= houses.seeds() >= MANY_SEEDS;
        self.set_limits();
    }

    /// Sets which endings pay by now, and when the search may grow next.
    pub(super) fn set_limits(&mut self) {
        let (paying, next_threshold) = if self.nodes < NODES_FOR_ALL_SLOTS {
            (SEEDS_THAT_ALWAYS_PAY, NODES_FOR_ALL_SLOTS)
        } else if self.nodes < NODES_FOR_8_SEEDS {
            (SEEDS_THAT_ALWAYS_PAY, NODES_FOR_8_SEEDS)
        } else if self.nodes < NODES_FOR_9_SEEDS {
            (8, NODES_FOR_9_SEEDS)
        } else if self.seen_many_seeds {
            (MOST_ENDING_SEEDS, u64::MAX)
        } else {
            (8, u64::MAX)
        };
        self.next_threshold = next_threshold;
        if self.ending_limit > 0 {
            self.ending_limit = paying;
        }
    }

    /// Counts a node, and returns whether more endings or slots may pay by now.
    #[inline(always)]
    pub(super) fn count_node(&mut self) -> bool {
        let before = self.nodes;
        self.nodes = before.wrapping_add(1); // It never wraps: no search has that many nodes.
        before >= self.next_threshold
    }

    /// Returns how many nodes of all variants there were.
    #[cfg(test)]
    pub(super) fn all_nodes(&self) -> u64 {
        let mut nodes = self.nodes;
        for variant in 0..16usize {
            if variant != self.variant {
                nodes = nodes.saturating_add(self.nodes_before[variant]);
            }
        }
        nodes
    }
}
