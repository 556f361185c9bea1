ghost use Rattle.std.specs.Prelude.{◌≡◌, ◌+◌, ◌<◌, ◌≤◌, false, [], map, length, take, vec_len, sum_by, slice_index_or, slice_set, IfOk, IfErr, OnOk};
ghost use Rattle.shelf.specs.declared.entry.Entry.TheVariants.{Number};
ghost use Rattle.shelf.specs.declared.refusal.Refusal.TheVariants.{NoEntry};
ghost use Rattle.arrayvec.specs.ArrayVec.{array_vec_len};
ghost use Rattle.shelf.specs.Limits.{most_slots, longest};
ghost use Rattle.shelf.specs.Value.{number, text, bytes_of, total};
ghost use Rattle.shelf.specs.Calls.{fresh, held_told};
ghost use Rattle.shelf.specs.Entries.{extent, value_at, too_large, meant, held_as};
ghost use Rattle.packed.specs.Capacity.{capacity_of};
ghost use Rattle.packed.specs.Slots.{entries_of};
ghost use Rattle.packed.specs.Model.{list_of};
ghost use Rattle.packed.specs.Kept.{packed_laws};

use super::Packed;
use crate::packed::pool;
use crate::slot::{Slot, shift, slots_for};
use arrayvec::ArrayVec;
use shelf::entry::{Entry, Held};
use shelf::{Kind, LONGEST, Refusal, SLOTS, Shelf};

// The most bytes of all texts together: more could not be on a shelf.
const MOST_BYTES: usize = SLOTS * LONGEST;

impl Packed {
    // A shelf with no entry, on this pool.
    pub fn new(pool: Vec<u8>) -> Packed
        ensures list { list_of result ≡ [] }
        ensures capacity { result.capacity ≡ capacity_of (vec_len pool) }
        ensures memory { result.pool ≡ pool }
    {
        let capacity = pool.len().min(MOST_BYTES);
        Packed::empty(pool, capacity)
    }

    // A shelf with no entry and this capacity.
    fn empty(pool: Vec<u8>, capacity: usize) -> Packed
        requires { capacity ≡ capacity_of (vec_len pool) }
        ensures list { list_of result ≡ [] }
        ensures capacity { result.capacity ≡ capacity }
        ensures memory { result.pool ≡ pool }
    {
        Packed {
            pool,
            slots: ArrayVec::new(),
            used: 0,
            capacity,
        }
    }

    // The memory, back to the caller.
    pub fn into_memory(self) -> Vec<u8>
        ensures memory { result ≡ self.pool }
        ensures capacity { capacity_of (vec_len result) ≡ self.capacity }
    {
        let Packed {
            pool,
            slots: _,
            used: _,
            capacity: _,
        } = self;
        pool
    }

    // The slot of entry i.
    #[tactic(auto, using(crate::specs::Kept::length_list))]
    fn slot(&self, i: usize) -> Result<Slot, Refusal>
        ensures entry { IfOk result (λ slot. slot.entry ≡ slice_index_or (entries_of self.now.slots.items) i (Number 0)) }
        ensures start { IfOk result (λ slot. slot.start ≡ sum_by extent (take i (entries_of self.now.slots.items))) }
        ensures inside { OnOk result ((i < array_vec_len self.now.slots) × (i < length (list_of self.now))) }
        ensures none { IfErr result (λ why. (why ≡ NoEntry) × (length (list_of self.now) ≤ i)) }
    {
        self.slots.get(i).copied().ok_or(Refusal::NoEntry)
    }

    // The slot of entry i, which is there.
    fn slot_at(&self, i: usize) -> Slot
        requires { i < array_vec_len self.now.slots }
        ensures entry { result.entry ≡ slice_index_or (entries_of self.now.slots.items) i (Number 0) }
        ensures start { result.start ≡ sum_by extent (take i (entries_of self.now.slots.items)) }
    {
        self.slots[i]
    }

    // What entry i, which is there and in this slot, holds; a text lies behind its start.
    fn lend(&self, i: usize, slot: Slot) -> Held<'_>
        requires inside { i < array_vec_len self.now.slots }
        requires entry { slot.entry ≡ slice_index_or (entries_of self.now.slots.items) i (Number 0) }
        requires start { slot.start ≡ sum_by extent (take i (entries_of self.now.slots.items)) }
        ensures value { slice_index_or (list_of self.now) i (number 0) ≡ meant result }
        ensures short { length (bytes_of (meant result)) ≤ longest }
    {
        let Slot { entry, start } = slot;
        match entry {
            Entry::Number(x) => Held::Number(x),
            Entry::Text(len) => Held::Text(&self.pool[start..start + len]),
        }
    }

    // What the entry at i holds.
    pub fn held(&self, i: usize) -> Result<Held<'_>, Refusal>
        ensures told { held_as result ≡ held_told i (list_of self.now) }
        ensures short { IfOk result (λ h. length (bytes_of (meant h)) ≤ longest) }
    {
        let slot = self.slot(i)?;
        Ok(self.lend(i, slot))
    }

    // The bytes of all texts, this one in the place of the one at i.
    fn total_with(&self, i: usize, bytes: &[u8]) -> usize
        requires inside { i < array_vec_len self.now.slots }
        requires short { length bytes.now ≤ longest }
        ensures { result ≡ total (slice_set (list_of self.now) i (text bytes.now)) }
    {
        self.used - self.slot_at(i).entry.size() + bytes.len()
    }

    // Makes the list anew.
    fn lay_out(&mut self, kinds: &[u8])
        requires { length kinds.now ≤ most_slots }
        ensures list { list_of self.new ≡ map fresh kinds.now }
        ensures capacity { self.new.capacity ≡ self.old.capacity }
    {
        self.slots = slots_for(kinds);
        self.used = 0;
    }

    // Puts an entry, with its bytes, in the place of entry i.
    fn replace(&mut self, i: usize, entry: Entry, bytes: &[u8])
        requires inside { i < array_vec_len self.old.slots }
        requires size { extent entry ≡ length bytes.now }
        requires within { too_large entry ≡ false }
        requires fits { self.old.used + length bytes.now ≤ self.old.capacity + extent (slice_index_or (entries_of self.old.slots.items) i (Number 0)) }
        ensures list { list_of self.new ≡ slice_set (list_of self.old) i (value_at entry bytes.now) }
        ensures capacity { self.new.capacity ≡ self.old.capacity }
    {
        let Slot {
            entry: before,
            start: from,
        } = self.slot_at(i);
        let old = before.size();
        pool::splice(&mut self.pool, from, from + old, self.used, bytes);
        shift(&mut self.slots, i + 1, old, bytes.len());
        self.used = self.used - old + bytes.len();
        self.slots[i].entry = entry;
    }

    // Sets the value at i to a number; over a number nothing moves.
    fn set_number(&mut self, i: usize, x: u32)
        requires { i < array_vec_len self.old.slots }
        ensures list { list_of self.new ≡ slice_set (list_of self.old) i (number x) }
        ensures capacity { self.new.capacity ≡ self.old.capacity }
    {
        match self.slot_at(i).entry {
            Entry::Number(_) => self.slots[i].entry = Entry::Number(x),
            Entry::Text(_) => self.replace(i, Entry::Number(x), &[]),
        }
    }

    // Sets the value at i to a text.
    fn set_text(&mut self, i: usize, bytes: &[u8])
        requires inside { i < array_vec_len self.old.slots }
        requires short { length bytes.now ≤ longest }
        requires fits { total (slice_set (list_of self.old) i (text bytes.now)) ≤ self.old.capacity }
        ensures list { list_of self.new ≡ slice_set (list_of self.old) i (text bytes.now) }
        ensures capacity { self.new.capacity ≡ self.old.capacity }
    {
        self.replace(i, Entry::Text(bytes.len()), bytes);
    }
}

impl Shelf for Packed {
    ghost values = { list_of };

    ghost slots = { λ _. most_slots };

    ghost capacity = { λ s. s.capacity };

    ghost laws = { packed_laws };

    fn open(&mut self, kinds: &[u8]) -> Result<(), Refusal> {
        shelf::may_open(SLOTS, kinds)?;
        self.lay_out(kinds);
        Ok(())
    }

    // Stays: here and in `rows`, since a trait for both would have to name the slot, `lay_out`, `set_number` and `set_text` with their clauses, and each make would still prove them.
    fn put_number(&mut self, i: usize, x: u32) -> Result<(), Refusal> {
        self.slot(i)?;
        self.set_number(i, x);
        Ok(())
    }

    fn put_text(&mut self, i: usize, bytes: &[u8]) -> Result<(), Refusal> {
        self.slot(i)?;
        if bytes.len() > LONGEST {
            return Err(Refusal::TextTooLong);
        }
        if self.total_with(i, bytes) > self.capacity {
            return Err(Refusal::NoCapacity);
        }
        self.set_text(i, bytes);
        Ok(())
    }

    fn kind(&self, i: usize) -> Result<Kind, Refusal> {
        Ok(self.held(i)?.kind())
    }

    fn number(&self, i: usize) -> Result<u32, Refusal> {
        self.held(i)?.number()
    }

    fn text(&self, i: usize, line: &mut [u8; LONGEST]) -> Result<usize, Refusal> {
        self.held(i)?.text(line)
    }

    fn slots(&self) -> usize {
        SLOTS
    }

    fn capacity(&self) -> usize {
        self.capacity
    }
}
