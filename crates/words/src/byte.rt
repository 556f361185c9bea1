// Classes of bytes, and runs of them.
ghost use Rattle.std.specs.Prelude.{◌≡◌, ◌≤◌, length};
ghost use Rattle.words.specs.Bytes.{member, every, run_end};

#[derive(Clone, Copy, PartialEq, Eq, Debug)]
pub enum Class {
    // Space, newline, tab.
    Layout,
    Letter,
    Digit,
    // What a name goes on with: letters and digits.
    Alnum,
    // What a text constant may have in it.
    Allowed,
}

// Stays: a class is a value that callers hand on and that clauses name; a closure at each call would only spell its bytes again.
impl Class {
    pub fn has(self, b: u8) -> bool
        ensures { result ≡ member self b }
    {
        match self {
            Class::Layout => matches!(b as char, ' ' | '\n' | '\t'),
            Class::Letter => matches!(b as char, 'a'..='z' | 'A'..='Z'),
            Class::Digit => matches!(b as char, '0'..='9'),
            Class::Alnum => matches!(b as char, 'a'..='z' | 'A'..='Z' | '0'..='9'),
            Class::Allowed => matches!(
                b as char,
                'a'..='z'
                    | 'A'..='Z'
                    | '0'..='9'
                    | ' '
                    | '\n'
                    | '\t'
                    | '('
                    | ')'
                    | '+'
                    | '-'
                    | ';'
                    | ','
                    | '|'
                    | ':'
                    | '='
            ),
        }
    }
}

// Where the run of such bytes from `at` on ends.
pub(crate) fn run_end(text: &[u8], class: Class, at: usize) -> usize
    requires { at ≤ length text.now }
    ensures is { result ≡ run_end class text.now at }
    ensures within { (at ≤ result) × (result ≤ length text.now) }
{
    let run = text[at..].iter().take_while(|b| class.has(**b)).count();
    at + run
}

// Whether all bytes are of the class.
pub fn all(bytes: &[u8], class: Class) -> bool
    ensures { result ≡ every (member class) bytes.now }
{
    bytes.iter().all(|b| class.has(*b))
}
