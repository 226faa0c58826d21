//! The transposition table: what is known of houses. What it forgets costs time only, so no clause says that slots and endings are kept.
ghost use Rattle.std.specs.{Prelude.{◌≡◌, ◌⊎◌, nat_eq, IfOk, IfSome, IsSome, Some}, Map.{lookup}};
ghost use Rattle.kalah_rules.specs.Key.{key_of};
ghost use Rattle.kalah_solve.specs.{Table.{Entries.{most_entries, IsTableSize, empty_table}, EndingTable.{IsEnding}}, Search.{IsOngoing}, Solver.Worth.{houses_worth}};

pub(crate) mod ending_table;
pub(crate) mod slot_table;
#[cfg(test)]
mod tests;

use crate::bounds::interval::Interval;
use crate::table::ending_table::EndingTable;
use crate::table::slot_table::SlotTable;
use kalah_rules::Houses;
use lru::{DefaultHasher, LruCache};
use std::alloc::{AllocError, Allocator, Global};
use std::marker::Model;
use std::num::NonZeroUsize;
use std::sync::Arc;

/// The most entries that a table can have room for.
pub const MOST_ENTRIES: u32 = 1_048_576;

/// States the limit of a table as a number: a law over the definition that contracts cite.
pub fn limit_of_tables()
    ensures { most_entries ≡ 1048576 }
{}

/// The most slots that a table begins with: so few are made quickly, and fit into a processor's cache.
const FIRST_SLOTS: u32 = 8_192;

/// A transposition table, of entries, slots and endings. Contracts see the entries: intervals that hold the worth of houses, by their
/// keys. If the table is full, a new entry replaces the least recently used one.
#[derive(Drop)]
pub struct Table<A: Allocator + Clone = Global> {
    entries: LruCache<u64, Interval, DefaultHasher, A>,
    // What is known of houses with few seeds, each in its slot.
    pub(crate) slots: SlotTable<A>,
    // How many seeds the mover wins of endings, which have still fewer. Tables may share them.
    pub(crate) endings: Arc<EndingTable<A>, A>,
}

impl<A: Allocator + Clone> Model for Table<A> {
    ghost use Rattle.kalah_solve.specs.Table.{SlotTable.{AreSlots}, Entries.{TableState, AreTrueEntries}};

    ghost Value = { TableState };

    ghost view = { λ t. record { entries = t.entries.entries; capacity = t.entries.cap } };

    ghost invariant = { λ t. AreTrueEntries t.entries.entries × AreSlots t.entries.cap t.slots };
}

impl<A: Allocator + Clone> Table<A> {
    ghost use Rattle.kalah_solve.specs.{Bounds.{Intervals.{Encloses}, Won.{won}}, Table.Entries.{AreTrueEntries}};

    /// Makes an empty table with room for `capacity` entries, 1 to 1,048,576.
    ///
    /// Fails with `AllocError` only if memory was refused.
    pub fn new(alloc: A, capacity: u32) -> Result<Table<A>, AllocError>
        requires { IsTableSize capacity }
        ensures { IfOk result (λ t. t ≡ empty_table capacity) }
    {
        let endings = Arc::new(alloc.clone()?, EndingTable::new(alloc.clone()?)?)?;
        Table::with_endings(alloc, capacity, endings)
    }

    /// Makes an empty table with these endings, which tables may share.
    pub(crate) fn with_endings(
        alloc: A,
        capacity: u32,
        endings: Arc<EndingTable<A>, A>,
    ) -> Result<Table<A>, AllocError>
        requires { IsTableSize capacity }
        ensures { IfOk result (λ t. t ≡ empty_table capacity) }
    {
        let room = NonZeroUsize::new(capacity as usize).unwrap();
        let entries = LruCache::sparse(alloc.clone()?, room)?;
        let slots = SlotTable::new(alloc, capacity.min(FIRST_SLOTS))?;
        Ok(Table {
            entries,
            slots,
            endings,
        })
    }

    /// Lays out all slots, unless that is done or there is no memory for them. What the first slots held is forgotten.
    #[cold]
    #[inline(never)]
    pub(crate) fn grow(&mut self)
        ensures { self.new ≡ self.old }
    {
        let capacity = self.entries.cap().get();
        // Twice as many would be more than the capacity.
        if self.slots.len() > capacity / 2 {
            return;
        }
        let count = capacity.min(MOST_ENTRIES as usize) as u32;
        let Ok(alloc) = self.entries.allocator().clone() else {
            return;
        };
        if let Ok(slots) = SlotTable::new(alloc, count) {
            self.slots = slots;
        }
    }

    /// Returns how many seeds the mover wins of an ending. Out of line, so that functions of the search stay small enough to be inlined.
    #[inline(never)]
    pub(crate) fn won<const VARIANT: u8>(&self, houses: Houses) -> u8
        requires ongoing { IsOngoing VARIANT houses }
        requires ending { IsEnding houses }
        ensures { result ≡ won houses }
    {
        self.endings.won::<VARIANT>(houses)
    }

    /// Returns the interval known for the houses, which become the most recently used.
    pub(crate) fn look_up(&mut self, houses: &Houses) -> Option<Interval>
        ensures found { result ≡ lookup (nat_eq (key_of houses.now)) self.old.entries }
        ensures holds { IfSome result (λ i. Encloses i (houses_worth houses.now)) }
        ensures capacity { self.new.capacity ≡ self.old.capacity }
    {
        let key = houses.key();
        self.entries.get(&key).copied()
    }

    /// Stores that the worth of the houses is in the interval, unless there is no memory for it. Replacing an entry needs none.
    pub(crate) fn keep(&mut self, houses: &Houses, interval: Interval)
        requires { Encloses interval (houses_worth houses.now) }
        ensures kept { (lookup (nat_eq (key_of houses.now)) self.new.entries ≡ Some interval) ⊎ (self.new ≡ self.old) }
        ensures again { IsSome (lookup (nat_eq (key_of houses.now)) self.old.entries)
            → lookup (nat_eq (key_of houses.now)) self.new.entries ≡ Some interval }
        ensures capacity { self.new.capacity ≡ self.old.capacity }
    {
        let key = houses.key();
        let _ = self.entries.put(key, interval);
    }
}
