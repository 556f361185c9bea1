// Parts from which a make can be built: a table of entries beside the bytes of the texts.
ghost use Rattle.std.specs.Prelude.{◌≡◌, ◌≤◌, length, replicate};
ghost use Rattle.shelf.specs.declared.entry.Entry.TheVariants.{Number};
ghost use Rattle.shelf.specs.Limits.{most_slots, longest};
ghost use Rattle.shelf.specs.Value.{bytes_of};
ghost use Rattle.shelf.specs.Kinds.{kind_held};
ghost use Rattle.shelf.specs.Calls.{the_number, the_text};
ghost use Rattle.shelf.specs.Entries.{extent, meant, cut_to, entry_for, table_for, entries_for};

use crate::{Kind, LONGEST, Refusal, SLOTS, fill_line};
use arrayvec::ArrayVec;

// What a slot holds; a text is its length, and the make knows where its bytes are.
#[derive(Clone, Copy, PartialEq, Eq, Hash, Debug)]
pub enum Entry {
    Number(u32),
    Text(usize),
}

// The entry in a place of a table that is not in use.
impl Default for Entry {
    ghost is_default = { λ e. e ≡ Number 0 };

    fn default() -> Entry {
        Entry::Number(0)
    }
}

// An entry's value, a text with its bytes.
// Stays: beside `Entry`, since one enum for both, `Held<usize>` and `Held<&[u8]>`, would not say that the first is a length, and no method fits both.
#[derive(Clone, Copy, PartialEq, Eq, Hash, Debug)]
pub enum Held<'a> {
    Number(u32),
    Text(&'a [u8]),
}

impl Entry {
    // The entry of a variable of this kind on a shelf that has just been opened.
    // Stays: the kind is a number here, since any may come; what is not 1 is a text.
    pub fn fresh(kind: u8) -> Entry
        ensures { result ≡ entry_for kind }
    {
        if kind == u8::from(Kind::Number) {
            Entry::Number(0)
        } else {
            Entry::Text(0)
        }
    }

    // How many bytes the text takes.
    pub fn size(self) -> usize
        ensures { result ≡ extent self }
    {
        match self {
            Entry::Number(_) => 0,
            Entry::Text(len) => len,
        }
    }
}

impl Held<'_> {
    // The kind of what is held.
    pub fn kind(self) -> Kind
        ensures { result ≡ kind_held (meant self.entry) }
    {
        match self {
            Held::Number(_) => Kind::Number,
            Held::Text(_) => Kind::Text,
        }
    }

    // The number that is held.
    pub fn number(self) -> Result<u32, Refusal>
        ensures { result ≡ the_number (meant self.entry) }
    {
        match self {
            Held::Number(x) => Ok(x),
            Held::Text(_) => Err(Refusal::OtherKind),
        }
    }

    // The length of the text that is held, which then begins the line, as far as it goes, with zeros behind it; at a number the line stays.
    pub fn text(self, line: &mut [u8; LONGEST]) -> Result<usize, Refusal>
        ensures answer { result ≡ (the_text (meant self.entry) line.old).answer }
        ensures cut { line.new ≡ (the_text (cut_to longest self.entry) line.old).line }
        ensures whole { length (bytes_of (meant self.entry)) ≤ longest → line.new ≡ (the_text (meant self.entry) line.old).line }
    {
        match self {
            Held::Number(_) => Err(Refusal::OtherKind),
            Held::Text(bytes) => {
                fill_line(line, bytes);
                Ok(bytes.len())
            }
        }
    }
}

// A table that begins with the entries for these kinds.
pub fn table_for(kinds: &[u8]) -> [Entry; SLOTS]
    ensures { result ≡ table_for kinds.now }
{
    let mut entries = [Entry::Number(0); SLOTS];
    lay(&mut entries, kinds);
    entries
}

// Lays the entries for these kinds over the beginning of a blank table, as far as it goes.
// Stays: by index, beside `entries_for`, since the whole table is offered to whoever writes a make; of what a `zip` of `iter_mut` lends a proof knows nothing.
fn lay(entries: &mut [Entry; SLOTS], kinds: &[u8])
    requires { entries.old ≡ replicate most_slots (Number 0) }
    ensures { entries.new ≡ table_for kinds.now }
{
    for i in 0..kinds.len().min(SLOTS) {
        entries[i] = Entry::fresh(kinds[i]);
    }
}

// The entries for these kinds alone, as many as there can be slots.
pub fn entries_for(kinds: &[u8]) -> ArrayVec<Entry, SLOTS>
    ensures { result.items ≡ entries_for kinds.now }
{
    let mut entries = ArrayVec::new();
    for kind in &kinds[..kinds.len().min(SLOTS)] {
        entries.push(Entry::fresh(*kind));
    }
    entries
}
