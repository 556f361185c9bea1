// The player of a deck on a shelf.
use crate::course::Course;
use shelf::{LONGEST, Shelf};

pub mod calls;

// A deck on its course, the shelf where its variables stand, and a line in which texts are put together.
pub struct Player<S: Shelf> {
    pub(crate) course: Course,
    pub(crate) shelf: S,
    // Stays: an array, since a shelf fills the whole line of its caller.
    pub(crate) line: [u8; LONGEST],
}
