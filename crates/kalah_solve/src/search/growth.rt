//! How a search grows with its nodes: it uses more endings, and all slots.
use crate::search::Search;
use std::alloc::Allocator;

impl<A: Allocator + Clone> Search<A> {
    /// Counts a node, and lets the search grow if that is due. Returns the number of nodes of this variant before it.
    pub(super) fn begin_node(&mut self) -> u64 {
        let before = self.counts.nodes;
        if self.counts.count_node() {
            self.grow();
        }
        before
    }

    // Uses more endings, and all slots.
    #[cold]
    #[inline(never)]
    fn grow(&mut self) {
        self.counts.set_limits();
        self.table.grow();
    }
}
