// A drive over any shelf, proved once.
ghost use Rattle.std.specs.Prelude.{◌≡◌};
ghost use Rattle.shelf.specs.Kinds.{kind_number};
ghost use Rattle.shelf.specs.Calls.{kind_told, text_told};
ghost use Rattle.shelf_cases.specs.Drive.{driven_list, seen, calls_of};

use shelf::{Kind, LONGEST, Refusal, Shelf};

// What each call answered.
#[derive(Clone, Copy, PartialEq, Eq, Debug)]
pub struct Seen {
    pub opened: Result<(), Refusal>,
    pub number_put: Result<(), Refusal>,
    pub text_put: Result<(), Refusal>,
    pub kind: Result<Kind, Refusal>,
    pub number: Result<u32, Refusal>,
    pub text: Result<usize, Refusal>,
}

// What to ask of a shelf: open it for these kinds, put a number at i and a text at j, and ask for both.
#[derive(Clone, Copy, PartialEq, Eq, Debug)]
pub struct Course<'a> {
    pub kinds: &'a [u8],
    pub i: usize,
    pub x: u32,
    pub j: usize,
    pub bytes: &'a [u8],
}

// Opens the shelf, puts a number at i and a text at j, and asks for both.
pub fn drive<S: Shelf>(shelf: &mut S, course: &Course<'_>, line: &mut [u8; LONGEST]) -> Seen
    ensures list { S.Shelf.values shelf.new ≡ driven_list (S.Shelf.slots shelf.old) (S.Shelf.capacity shelf.old) (calls_of course.now) (S.Shelf.values shelf.old) }
    ensures seen { result ≡ seen (S.Shelf.slots shelf.old) (S.Shelf.capacity shelf.old) (calls_of course.now) (S.Shelf.values shelf.old) line.old }
    ensures told { kind_number result.kind ≡ kind_told course.now.i (S.Shelf.values shelf.new) }
    ensures line { line.new ≡ (text_told course.now.j (S.Shelf.values shelf.new) line.old).line }
{
    let opened = shelf.open(course.kinds);
    let number_put = shelf.put_number(course.i, course.x);
    let text_put = shelf.put_text(course.j, course.bytes);
    let kind = shelf.kind(course.i);
    let number = shelf.number(course.i);
    let text = shelf.text(course.j, line);
    Seen {
        opened,
        number_put,
        text_put,
        kind,
        number,
        text,
    }
}
