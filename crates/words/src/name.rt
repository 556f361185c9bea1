// Keywords and names.
ghost use Rattle.std.specs.Prelude.{◌≡◌};
ghost use Rattle.words.specs.Words.{keyword, is_name};

use crate::byte::{Class, all};
use crate::word::Fixed;
use spelling::{Entry, find};

const LETTERS: &[u8] = b"beginenddeclareintegerstringifthenelsefiwhiledood";

// Stays: entries of place, length and value, since that is the form that is asked for the search.
const KEYWORDS: [Entry<Fixed>; 12] = [
    Entry {
        place: 0,
        size: 5,
        value: Fixed::Begin,
    },
    Entry {
        place: 5,
        size: 3,
        value: Fixed::End,
    },
    Entry {
        place: 8,
        size: 7,
        value: Fixed::Declare,
    },
    Entry {
        place: 15,
        size: 7,
        value: Fixed::Integer,
    },
    Entry {
        place: 22,
        size: 6,
        value: Fixed::String,
    },
    Entry {
        place: 28,
        size: 2,
        value: Fixed::If,
    },
    Entry {
        place: 30,
        size: 4,
        value: Fixed::Then,
    },
    Entry {
        place: 34,
        size: 4,
        value: Fixed::Else,
    },
    Entry {
        place: 38,
        size: 2,
        value: Fixed::Fi,
    },
    Entry {
        place: 40,
        size: 5,
        value: Fixed::While,
    },
    Entry {
        place: 45,
        size: 2,
        value: Fixed::Do,
    },
    Entry {
        place: 47,
        size: 2,
        value: Fixed::Od,
    },
];

// The keyword with this spelling.
pub fn keyword_of(spelling: &[u8]) -> Option<Fixed>
    ensures { result ≡ keyword spelling.now }
{
    find(LETTERS, &KEYWORDS, spelling)
}

// Whether this is a name: a letter, then letters and digits, and no keyword.
pub fn is_name(w: &[u8]) -> bool
    ensures { result ≡ is_name w.now }
{
    match w {
        [] => false,
        [first, ..] => {
            Class::Letter.has(*first) && all(w, Class::Alnum) && keyword_of(w).is_none()
        }
    }
}
