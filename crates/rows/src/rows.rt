ghost use Rattle.std.specs.Prelude.{◌≡◌, ◌≤◌, vec_len};
ghost use Rattle.shelf.specs.Entries.{Within};
ghost use Rattle.arrayvec.specs.ArrayVec.{array_vec_len};
ghost use Rattle.rows.specs.Slots.{slots_of};

use arrayvec::ArrayVec;
use shelf::SLOTS;
use shelf::entry::Entry;

pub mod calls;

// Rows, as the client calls this make: a row of `LONGEST` bytes to a slot.
// The text of entry i begins row i.
#[derive(Drop)]
pub struct Rows {
    memory: Vec<u8>,
    entries: ArrayVec<Entry, SLOTS>,
    slots: usize,
    ghost few: { array_vec_len entries ≤ slots },
    ghost rows: { slots ≡ slots_of (vec_len memory) },
    ghost within: { Within entries.items },
}
