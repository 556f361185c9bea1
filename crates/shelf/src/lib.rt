// A shelf, as the client calls it: where a player's variables stand.
#![tactic(auto)]

ghost use Rattle.std.specs.Prelude.{◌≡◌, ℕ, ◌≤◌, List, length, take, replicate};
ghost use Rattle.shelf.specs.Limits.{longest};
ghost use Rattle.shelf.specs.Laws.{Laws};
ghost use Rattle.shelf.specs.Value.{Value};
ghost use Rattle.shelf.specs.Kinds.{kind_at, kind_number};
ghost use Rattle.shelf.specs.Calls.{open_told, open_list, number_answer, number_put, text_answer, text_put, known, all_kinds, kind_told, number_told, text_told, line_of};

pub use crate::kind::Kind;
pub use crate::refusal::Refusal;

pub mod entry;
pub mod kind;
pub mod refusal;

// The most slots of a shelf.
pub const SLOTS: usize = 64;
// The most bytes of a text, and the length of a line.
pub const LONGEST: usize = 80;

// A shelf means a list of values: at most `slots` of them (the client's seats), whose texts take at most `capacity` bytes
// together (the client's room). No call alters either, and a refused call alters nothing.
pub trait Shelf: Sized {
    ghost values: { Self → List Value };

    ghost slots: { Self → ℕ };

    ghost capacity: { Self → ℕ };

    // What each make has to show.
    ghost laws: { Laws values slots capacity };

    // Makes the list anew, with an entry for each kind: 0, or the empty text.
    // Stays: kinds are numbers here, since any number may come, and 61 refuses it.
    fn open(&mut self, kinds: &[u8]) -> Result<(), Refusal>
        ensures answer { result ≡ open_told (slots self.old) kinds.now }
        ensures list { values self.new ≡ open_list (slots self.old) kinds.now (values self.old) }
        ensures slots_stay { slots self.new ≡ slots self.old }
        ensures capacity_stays { capacity self.new ≡ capacity self.old };

    // Puts a number at i, whatever stood there.
    fn put_number(&mut self, i: usize, x: u32) -> Result<(), Refusal>
        ensures answer { result ≡ number_answer i (values self.old) }
        ensures list { values self.new ≡ number_put i x (values self.old) }
        ensures slots_stay { slots self.new ≡ slots self.old }
        ensures capacity_stays { capacity self.new ≡ capacity self.old };

    // Puts a text at i, whatever stood there.
    fn put_text(&mut self, i: usize, bytes: &[u8]) -> Result<(), Refusal>
        ensures answer { result ≡ text_answer (capacity self.old) i bytes.now (values self.old) }
        ensures list { values self.new ≡ text_put (capacity self.old) i bytes.now (values self.old) }
        ensures slots_stay { slots self.new ≡ slots self.old }
        ensures capacity_stays { capacity self.new ≡ capacity self.old };

    // The kind of the entry at i.
    fn kind(&self, i: usize) -> Result<Kind, Refusal>
        ensures kind { result ≡ kind_at i (values self.now) }
        ensures told { kind_number result ≡ kind_told i (values self.now) };

    // The number at i.
    fn number(&self, i: usize) -> Result<u32, Refusal>
        ensures { result ≡ number_told i (values self.now) };

    // The length of the text at i, which then begins the line, with zeros behind it.
    // Stays: the line is the caller's, since the core has no heap, and a refused question leaves it as it was.
    fn text(&self, i: usize, line: &mut [u8; LONGEST]) -> Result<usize, Refusal>
        ensures answer { result ≡ (text_told i (values self.now) line.old).answer }
        ensures line { line.new ≡ (text_told i (values self.now) line.old).line };

    // How many entries there can be.
    fn slots(&self) -> usize
        ensures { result ≡ slots self.now };

    // How many bytes all texts together can take.
    fn capacity(&self) -> usize
        ensures { result ≡ capacity self.now };
}

fn is_kind(kind: u8) -> bool
    ensures { result ≡ known kind }
{
    Kind::try_from(kind).is_ok()
}

// Whether every kind is known.
fn all_kinds(kinds: &[u8]) -> bool
    ensures { result ≡ all_kinds kinds.now }
{
    kinds.iter().all(|&kind| is_kind(kind))
}

// What opening a shelf of so many slots answers.
// Stays: kinds are numbers here too.
pub fn may_open(slots: usize, kinds: &[u8]) -> Result<(), Refusal>
    ensures { result ≡ open_told slots kinds.now }
{
    if kinds.is_empty() || slots < kinds.len() {
        return Err(Refusal::WrongCount);
    }
    if !all_kinds(kinds) {
        return Err(Refusal::UnknownKind);
    }
    Ok(())
}

// Writes the text, as far as the line goes, over the beginning of a line of zeros.
fn begin(line: &mut [u8; LONGEST], text: &[u8])
    ensures cut { line.old ≡ replicate longest 0 → line.new ≡ line_of (take longest text.now) }
    ensures whole { line.old ≡ replicate longest 0 → length text.now ≤ longest → line.new ≡ line_of text.now }
{
    let n = text.len().min(LONGEST);
    line[0..n].copy_from_slice(&text[0..n]);
}

// Fills the line with the text, as far as it goes, and with zeros behind it.
pub fn fill_line(line: &mut [u8; LONGEST], text: &[u8])
    ensures cut { line.new ≡ line_of (take longest text.now) }
    ensures whole { length text.now ≤ longest → line.new ≡ line_of text.now }
{
    *line = [0; LONGEST];
    begin(line, text);
}
