ghost use Rattle.std.specs.Prelude.{◌≡◌, ◌*◌, ◌<◌, ◌≤◌, [], map, length, vec_len, slice_index_or, slice_set, IfOk, IfErr, OnOk};
ghost use Rattle.arrayvec.specs.ArrayVec.{array_vec_len};
ghost use Rattle.shelf.specs.declared.entry.Entry.TheVariants.{Number};
ghost use Rattle.shelf.specs.declared.refusal.Refusal.TheVariants.{NoEntry};
ghost use Rattle.shelf.specs.Limits.{longest};
ghost use Rattle.shelf.specs.Value.{number, text, bytes_of, total};
ghost use Rattle.shelf.specs.Calls.{fresh, held_told};
ghost use Rattle.shelf.specs.Entries.{meant, held_as};
ghost use Rattle.rows.specs.Slots.{slots_of};
ghost use Rattle.rows.specs.Model.{list_of};
ghost use Rattle.rows.specs.Kept.{rows_laws};

use super::Rows;
use arrayvec::ArrayVec;
use shelf::entry::{Entry, Held};
use shelf::{Kind, LONGEST, Refusal, SLOTS, Shelf};

// Stays: `new`, `empty` and `into_memory` are like those of `packed`, but promise slots where those promise a capacity.
impl Rows {
    // A shelf with no entry, on this memory.
    pub fn new(memory: Vec<u8>) -> Rows
        ensures list { list_of result ≡ [] }
        ensures slots { result.slots ≡ slots_of (vec_len memory) }
        ensures memory { result.memory ≡ memory }
    {
        let slots = (memory.len() / LONGEST).min(SLOTS);
        Rows::empty(memory, slots)
    }

    // A shelf with no entry and so many slots.
    fn empty(memory: Vec<u8>, slots: usize) -> Rows
        requires { slots ≡ slots_of (vec_len memory) }
        ensures list { list_of result ≡ [] }
        ensures slots { result.slots ≡ slots }
        ensures memory { result.memory ≡ memory }
    {
        Rows {
            memory,
            entries: ArrayVec::new(),
            slots,
        }
    }

    // The memory, back to the caller.
    pub fn into_memory(self) -> Vec<u8>
        ensures memory { result ≡ self.memory }
        ensures slots { slots_of (vec_len result) ≡ self.slots }
    {
        let Rows {
            memory,
            entries: _,
            slots: _,
        } = self;
        memory
    }

    // The entry at i.
    #[tactic(auto, using(crate::specs::Kept::length_list))]
    fn entry(&self, i: usize) -> Result<Entry, Refusal>
        ensures entry { IfOk result (λ e. slice_index_or self.now.entries.items i (Number 0) ≡ e) }
        ensures inside { OnOk result ((i < array_vec_len self.now.entries) × (i < length (list_of self.now))) }
        ensures none { IfErr result (λ why. (why ≡ NoEntry) × (length (list_of self.now) ≤ i)) }
    {
        self.entries.get(i).copied().ok_or(Refusal::NoEntry)
    }

    // What entry i, which is there, holds; a text lies in its row.
    fn lend(&self, i: usize, entry: Entry) -> Held<'_>
        requires inside { i < array_vec_len self.now.entries }
        requires is { slice_index_or self.now.entries.items i (Number 0) ≡ entry }
        ensures value { slice_index_or (list_of self.now) i (number 0) ≡ meant result }
        ensures short { length (bytes_of (meant result)) ≤ longest }
    {
        match entry {
            Entry::Number(x) => Held::Number(x),
            Entry::Text(len) => {
                let at = LONGEST * i;
                Held::Text(&self.memory[at..at + len])
            }
        }
    }

    // What the entry at i holds.
    pub fn held(&self, i: usize) -> Result<Held<'_>, Refusal>
        ensures told { held_as result ≡ held_told i (list_of self.now) }
        ensures short { IfOk result (λ h. length (bytes_of (meant h)) ≤ longest) }
    {
        let entry = self.entry(i)?;
        Ok(self.lend(i, entry))
    }

    // Makes the list anew.
    fn lay_out(&mut self, kinds: &[u8])
        requires { length kinds.now ≤ self.old.slots }
        ensures list { list_of self.new ≡ map fresh kinds.now }
        ensures slots { self.new.slots ≡ self.old.slots }
    {
        self.entries = shelf::entry::entries_for(kinds);
    }

    // Sets the value at i to a number.
    fn set_number(&mut self, i: usize, x: u32)
        requires { i < array_vec_len self.old.entries }
        ensures list { list_of self.new ≡ slice_set (list_of self.old) i (number x) }
        ensures slots { self.new.slots ≡ self.old.slots }
    {
        self.entries[i] = Entry::Number(x);
    }

    // Sets the value at i to a text, for which its row is always long enough.
    fn set_text(&mut self, i: usize, bytes: &[u8])
        requires inside { i < array_vec_len self.old.entries }
        requires short { length bytes.now ≤ longest }
        ensures list { list_of self.new ≡ slice_set (list_of self.old) i (text bytes.now) }
        ensures slots { self.new.slots ≡ self.old.slots }
        ensures fits { total (slice_set (list_of self.old) i (text bytes.now)) ≤ longest * self.old.slots }
    {
        let at = LONGEST * i;
        self.memory[at..at + bytes.len()].copy_from_slice(bytes);
        self.entries[i] = Entry::Text(bytes.len());
    }
}

impl Shelf for Rows {
    ghost values = { list_of };

    ghost slots = { λ s. s.slots };

    ghost capacity = { λ s. longest * s.slots };

    ghost laws = { rows_laws };

    fn open(&mut self, kinds: &[u8]) -> Result<(), Refusal> {
        shelf::may_open(self.slots, kinds)?;
        self.lay_out(kinds);
        Ok(())
    }

    // Stays: here and in `packed`, since a trait for both would have to name the entry, `lay_out`, `set_number` and `set_text` with their clauses, and each make would still prove them.
    fn put_number(&mut self, i: usize, x: u32) -> Result<(), Refusal> {
        self.entry(i)?;
        self.set_number(i, x);
        Ok(())
    }

    fn put_text(&mut self, i: usize, bytes: &[u8]) -> Result<(), Refusal> {
        self.entry(i)?;
        if bytes.len() > LONGEST {
            return Err(Refusal::TextTooLong);
        }
        self.set_text(i, bytes);
        Ok(())
    }

    fn kind(&self, i: usize) -> Result<Kind, Refusal> {
        Ok(self.held(i)?.kind())
    }

    fn number(&self, i: usize) -> Result<u32, Refusal> {
        self.held(i)?.number()
    }

    fn text(&self, i: usize, line: &mut [u8; LONGEST]) -> Result<usize, Refusal> {
        self.held(i)?.text(line)
    }

    fn slots(&self) -> usize {
        self.slots
    }

    fn capacity(&self) -> usize {
        LONGEST * self.slots
    }
}
