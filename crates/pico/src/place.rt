// Lines and columns of a text, and its bytes as a person reads them.
use std::fmt;

// A place, with its line and column, both from 1, and where its line begins.
#[derive(Clone, Copy, PartialEq, Eq, Debug)]
pub struct Spot {
    pub place: usize,
    pub line: usize,
    pub column: usize,
    pub start: usize,
}

pub const FIRST: Spot = Spot {
    place: 0,
    line: 1,
    column: 1,
    start: 0,
};

impl Spot {
    // The spot after one byte more.
    fn after(self, byte: u8) -> Spot {
        let place = self.place.saturating_add(1);
        if byte == b'\n' {
            Spot {
                place,
                line: self.line.saturating_add(1),
                column: 1,
                start: place,
            }
        } else {
            Spot {
                place,
                column: self.column.saturating_add(1),
                ..self
            }
        }
    }

    // Goes on from here to a later place of the text.
    pub fn onward(self, text: &[u8], place: usize) -> Spot {
        let passed = text.get(self.place..place.min(text.len()));
        passed
            .unwrap_or(&[])
            .iter()
            .fold(self, |spot, byte| spot.after(*byte))
    }
}

// So many bytes are shown at a time.
const PIECE: usize = 64;

// Bytes as a terminal can show them: anything but printable ASCII becomes a dot.
#[derive(Clone, Copy)]
pub struct Shown<'a>(pub &'a [u8]);

// Stays: in pieces, since a call for each byte takes 1.7 to 2 times the time where long words are listed.
impl fmt::Display for Shown<'_> {
    fn fmt<W: fmt::Write>(&self, f: &mut fmt::Formatter<W>) -> fmt::Result {
        for piece in self.0.chunks(PIECE) {
            let mut shown = [b'.'; PIECE];
            for (to, byte) in shown.iter_mut().zip(piece) {
                *to = match *byte {
                    c @ b' '..=b'~' => c,
                    _ => b'.',
                };
            }
            let shown = shown.get(..piece.len()).unwrap_or(&[]);
            f.write_str(str::from_utf8(shown).unwrap_or(""))?;
        }
        Ok(())
    }
}

// The line of a place, and a caret under it.
#[derive(Clone, Copy)]
pub struct Excerpt<'a> {
    text: &'a [u8],
    pub spot: Spot,
}

impl<'a> Excerpt<'a> {
    pub fn new(text: &'a [u8], place: usize) -> Excerpt<'a> {
        Excerpt {
            text,
            spot: FIRST.onward(text, place),
        }
    }
}

impl fmt::Display for Excerpt<'_> {
    fn fmt<W: fmt::Write>(&self, f: &mut fmt::Formatter<W>) -> fmt::Result {
        let Spot { start, column, .. } = self.spot;
        let line = Shown(line_from(self.text, start));
        let caret = '^';
        write!(f, "  {line}\n  {caret:>column$}")
    }
}

// The line that begins at `start`.
fn line_from(text: &[u8], start: usize) -> &[u8] {
    let rest = text.get(start..).unwrap_or(&[]);
    rest.split(|byte| *byte == b'\n').next().unwrap_or(rest)
}
