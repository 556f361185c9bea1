// The slots of a packed shelf.
ghost use Rattle.std.specs.Prelude.{◌≡◌, ℕ, ◌+◌, ◌-◌, ◌<◌, ◌≤◌, length, slice_index};
ghost use Rattle.shelf.specs.Limits.{longest};
ghost use Rattle.shelf.specs.Entries.{entries_for};
ghost use Rattle.packed.specs.Capacity.{most_bytes};
ghost use Rattle.packed.specs.Slots.{entries_of, starts_of};

use arrayvec::ArrayVec;
use shelf::SLOTS;
use shelf::entry::{Entry, entries_for};

// An entry, and where in the pool its text begins.
#[derive(Clone, Copy, PartialEq, Eq, Default, Debug)]
pub(crate) struct Slot {
    pub entry: Entry,
    pub start: usize,
}

// The slots of a shelf that has just been opened: no text takes a byte.
pub(crate) fn slots_for(kinds: &[u8]) -> ArrayVec<Slot, SLOTS>
    ensures entries { entries_of result.items ≡ entries_for kinds.now }
    ensures starts { (k : ℕ) → slice_index (starts_of result.items) k ≡ 0 }
{
    let entries = entries_for(kinds);
    let mut slots = ArrayVec::new();
    for entry in entries.as_slice() {
        slots.push(Slot {
            entry: *entry,
            start: 0,
        });
    }
    slots
}

// Moves the slots from `from` on, since a text before them of `old` bytes now has `new`.
pub(crate) fn shift(slots: &mut [Slot], from: usize, old: usize, new: usize)
    requires ends { from ≤ length slots.old }
    requires short { new ≤ longest }
    requires behind { (k : ℕ) → from ≤ k → k < length slots.old → (old ≤ slice_index (starts_of slots.old) k) × (slice_index (starts_of slots.old) k ≤ most_bytes) }
    ensures entries { entries_of slots.new ≡ entries_of slots.old }
    ensures before { (k : ℕ) → k < from → slice_index (starts_of slots.new) k ≡ slice_index (starts_of slots.old) k }
    ensures moved { (k : ℕ) → from ≤ k → k < length slots.old → slice_index (starts_of slots.new) k ≡ slice_index (starts_of slots.old) k - old + new }
{
    if old == new {
        return;
    }
    for slot in &mut slots[from..] {
        slot.start = slot.start - old + new;
    }
}
