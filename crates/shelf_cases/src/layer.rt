// The pattern for a layer: it stands on any shelf, passes every call through, and is a shelf itself.
ghost use Rattle.std.specs.Prelude.{◌≡◌};
ghost use Rattle.shelf_cases.specs.Through.{through};

use shelf::{Kind, LONGEST, Refusal, Shelf};

#[derive(Drop)]
pub struct Layer<S: Shelf> {
    below: S,
}

impl<S: Shelf> Layer<S> {
    pub fn new(below: S) -> Layer<S>
        ensures { result.below ≡ below }
    {
        Layer { below }
    }

    pub fn into_below(self) -> S
        ensures { result ≡ self.below }
    {
        let Layer { below } = self;
        below
    }
}

impl<S: Shelf> Shelf for Layer<S> {
    ghost values = { λ l. S.Shelf.values l.below };

    ghost slots = { λ l. S.Shelf.slots l.below };

    ghost capacity = { λ l. S.Shelf.capacity l.below };

    ghost laws = { through (λ l. l.below) S.Shelf.values S.Shelf.slots S.Shelf.capacity S.Shelf.laws };

    fn open(&mut self, kinds: &[u8]) -> Result<(), Refusal> {
        self.below.open(kinds)
    }

    fn put_number(&mut self, i: usize, x: u32) -> Result<(), Refusal> {
        self.below.put_number(i, x)
    }

    fn put_text(&mut self, i: usize, bytes: &[u8]) -> Result<(), Refusal> {
        self.below.put_text(i, bytes)
    }

    fn kind(&self, i: usize) -> Result<Kind, Refusal> {
        self.below.kind(i)
    }

    fn number(&self, i: usize) -> Result<u32, Refusal> {
        self.below.number(i)
    }

    fn text(&self, i: usize, line: &mut [u8; LONGEST]) -> Result<usize, Refusal> {
        self.below.text(i, line)
    }

    fn slots(&self) -> usize {
        self.below.slots()
    }

    fn capacity(&self) -> usize {
        self.below.capacity()
    }
}
