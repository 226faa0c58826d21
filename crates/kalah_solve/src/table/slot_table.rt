//! A table of slots for what is known of houses. Each slot keeps what was stored last; nothing is searched for.
ghost use Rattle.std.specs.Prelude.{◌≡◌, ◌≤◌, ◌<◌, ◌-◌, ◌*◌, ◌/◌, ◌^◌, ◌↔◌, IfOk, IfSome, IsSome, length};
ghost use Rattle.kalah_rules.specs.{Limits.{most_seeds}, Position.{AreWithinLimits}, Key.{key_of}};
ghost use Rattle.kalah_solve.specs.{Bounds.Won.{won, IsWithinBounds}, Table.SlotTable.{mixed, slot_index, tag_of, stored_tag, stored_least, stored_most, AreSlotsFor}};

use crate::bounds::seed_bounds::SeedBounds;
use kalah_rules::{Houses, MOST_SEEDS};
use std::alloc::{AllocError, Allocator, Global};
use std::marker::Model;

// The least number of slots: enough that a slot and a tag determine the key.
const LEAST_SLOTS: u32 = 1024;

// The factor of the tag in a slot: it begins at bit 10.
const TAG_UNIT: u64 = 1024;

// The factor by which a key is mixed.
const MIX: u64 = 0x9E37_79B9_7F4A_7C15;

// The number of tags.
const TAG_COUNT: u64 = 0x40_0000_0000_0000;

// What is known of some houses that have this slot, as one number. From bit 10 on it has the tag of their mixed key, and below that the
// most and the least that the mover wins. Initially it holds what is known of all houses.
#[derive(Clone, Copy)]
struct Slot {
    stored: u64,
}

impl Slot {
    // Returns the slot that stores these bounds of the houses with this tag.
    fn of(tag: u64, bounds: SeedBounds) -> Slot
        requires tag { tag < 2 ^ 54 }
        requires least { bounds.least ≤ most_seeds }
        ensures tag { stored_tag result ≡ tag }
        ensures least { stored_least result ≡ bounds.least }
        ensures most { stored_most result ≡ bounds.most }
    {
        Slot {
            stored: TAG_UNIT * tag + 32 * bounds.most as u64 + bounds.least as u64,
        }
    }

    // Returns the bounds that it stores of the houses with this tag, or `None` if it is about others.
    fn bounds_of(self, tag: u64) -> Option<SeedBounds>
        requires { tag < 2 ^ 54 }
        ensures found { IsSome result ↔ (stored_tag self ≡ tag) }
        ensures least { IfSome result (λ s. s.least ≡ stored_least self) }
        ensures most { IfSome result (λ s. s.most ≡ stored_most self) }
    {
        let bounds = self.stored.wrapping_sub(TAG_UNIT * tag);
        if bounds >= TAG_UNIT {
            return None;
        }
        Some(SeedBounds {
            least: (bounds % 32) as u8,
            most: (bounds / 32) as u8,
        })
    }
}

/// A direct-mapped table: a fixed number of slots, each shared by many houses. The number is a power of two, and the upper bits of a mixed
/// key are its slot.
#[derive(Drop)]
pub(crate) struct SlotTable<A: Allocator = Global> {
    slots: Vec<Slot, A>,
    // How many bits of a mixed key are below its slot.
    shift: u32,
}

impl<A: Allocator> Model for SlotTable<A> {
    ghost use Rattle.std.specs.Prelude.{List, length};
    ghost use Rattle.kalah_solve.specs.{declared.table.slot_table.Slot.{Slot}, Table.SlotTable.{AreSlotsByShift, AreTrueSlots}};

    ghost Value = { List Slot };

    ghost view = { λ p. p.slots.items };

    ghost invariant = { λ p. AreSlotsByShift p.shift (length p.slots.items) × AreTrueSlots p.shift p.slots.items };
}

// Returns the mixed key of the houses.
#[tactic(auto, unfolding(crate::specs::Table::SlotTable::mixed))]
fn mixed_key(houses: &Houses) -> u64
    ensures mixed { result ≡ mixed (key_of houses.now) }
    ensures small { result < 2 ^ 64 }
    ensures limits { AreWithinLimits houses.now }
{
    houses.key().wrapping_mul(MIX)
}

// Returns the slot of a mixed key: its bits from `shift` on.
#[tactic(auto, using(crate::proofs::SlotLemmas::slot_inside))]
fn slot_index(mixed: u64, shift: u32) -> usize
    requires { shift < 64 }
    ensures slot { result ≡ slot_index shift mixed }
    ensures inside { result < 2 ^ (64 - shift) }
{
    (mixed >> shift) as usize
}

// Returns the tag of a mixed key: its lowest 54 bits, which are all that any slot leaves open.
fn tag_of(mixed: u64) -> u64
    ensures tag { result ≡ tag_of mixed }
    ensures small { result < 2 ^ 54 }
{
    mixed % TAG_COUNT
}

impl<A: Allocator> SlotTable<A> {
    /// Makes the slots of a table with this capacity, with nothing known. Their number is the capacity, rounded down to a power of two, but
    /// at least 1,024.
    pub(crate) fn new(alloc: A, capacity: u32) -> Result<SlotTable<A>, AllocError>
        ensures { IfOk result (λ p. AreSlotsFor capacity (length p)) }
    {
        let unknown = SeedBounds {
            least: 0,
            most: MOST_SEEDS,
        };
        let bits = LEAST_SLOTS.max(capacity).ilog2();
        let slots = Vec::from_elem(alloc, Slot::of(0, unknown), 1 << bits)?;
        Ok(SlotTable {
            slots,
            shift: 64 - bits,
        })
    }

    /// Returns the number of slots.
    pub(crate) fn len(&self) -> usize
        ensures { result ≡ length self.now }
    {
        self.slots.len()
    }

    /// Returns what the slot of the houses states of them: bounds of the seeds that the mover wins. They are 0 and all seeds if it is
    /// about others.
    pub(crate) fn look_up(&self, houses: &Houses) -> SeedBounds
        ensures { IsWithinBounds result (won houses.now) }
    {
        let mixed = mixed_key(houses);
        let slot = self.slots[slot_index(mixed, self.shift)];
        match slot.bounds_of(tag_of(mixed)) {
            Some(bounds) => bounds,
            None => SeedBounds::unknown(houses),
        }
    }

    /// Stores in the slot of the houses that what the mover wins is within these bounds. No clause says that it is kept: see `table.rt`.
    pub(crate) fn keep(&mut self, houses: &Houses, bounds: SeedBounds)
        requires { IsWithinBounds bounds (won houses.now) }
        ensures { length self.new ≡ length self.old }
    {
        let mixed = mixed_key(houses);
        let stored = Slot::of(tag_of(mixed), bounds);
        let at = slot_index(mixed, self.shift);
        self.slots[at] = stored;
    }
}
