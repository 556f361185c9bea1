ghost use Rattle.std.specs.Prelude.{◌≡◌, ◌≤◌, vec_len, sum_by};
ghost use Rattle.shelf.specs.Limits.{most_slots};
ghost use Rattle.shelf.specs.Entries.{Within, extent};
ghost use Rattle.arrayvec.specs.ArrayVec.{array_vec_len};
ghost use Rattle.packed.specs.Capacity.{capacity_of};
ghost use Rattle.packed.specs.Slots.{entries_of, starts_of};
ghost use Rattle.packed.specs.Starts.{Placed};

use crate::slot::Slot;
use arrayvec::ArrayVec;
use shelf::SLOTS;

pub mod calls;
pub mod pool;

// Packed, as the client calls this make: all texts back to back in one pool.
// The texts lie in the pool in the order of their slots, `used` bytes together.
#[derive(Drop)]
pub struct Packed {
    // Stays: the client's memory with `used` and `capacity` beside it, since a vector's growing may fail, and the client gets back the length that was given.
    pool: Vec<u8>,
    slots: ArrayVec<Slot, SLOTS>,
    used: usize,
    capacity: usize,
    ghost few: { array_vec_len slots ≤ most_slots },
    ghost within: { Within (entries_of slots.items) },
    ghost placed: { Placed (array_vec_len slots) (entries_of slots.items) (starts_of slots.items) },
    ghost filled: { used ≡ sum_by extent (entries_of slots.items) },
    ghost fits: { used ≤ capacity },
    ghost sure: { capacity ≡ capacity_of (vec_len pool) },
}
