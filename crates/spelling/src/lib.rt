// The one search by spelling, for tables of any sort: keywords, declared names.
#![tactic(auto)]

ghost use Rattle.std.specs.Prelude.{◌≡◌};
ghost use Rattle.spelling.specs.Table.{spells, found};

// An entry of a table: where its spelling stands in the letters, and what it stands for.
// Stays: a place and a length in letters, since that is the form that is asked for.
#[derive(Clone, Copy, PartialEq, Eq, Default, Debug)]
pub struct Entry<T> {
    pub place: usize,
    pub size: usize,
    pub value: T,
}

// Whether the part of `letters` lies within them and is `spelling`.
fn part_is(letters: &[u8], place: usize, size: usize, spelling: &[u8]) -> bool
    ensures { result ≡ spells letters.now spelling.now place size }
{
    match letters.get(place..) {
        Some(rest) => size <= rest.len() && &rest[..size] == spelling,
        None => false,
    }
}

// What the first entry that spells this stands for.
fn first<T: Copy>(letters: &[u8], entries: &[Entry<T>], spelling: &[u8]) -> Option<T>
    ensures { result ≡ found letters.now spelling.now entries.now }
{
    entries
        .iter()
        .find(|e| part_is(letters, e.place, e.size, spelling))
        .map(|e| e.value)
}

// What the first entry with this spelling stands for. An entry outside the letters matches nothing.
pub fn find<T: Copy>(letters: &[u8], entries: &[Entry<T>], spelling: &[u8]) -> Option<T>
    ensures { result ≡ found letters.now spelling.now entries.now }
{
    first(letters, entries, spelling)
}
