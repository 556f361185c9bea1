// What a declared name stands for: its type, 1 integer or 2 string, and its variable.
// Stays: the type as a number, since a declaration may bring any.
#[derive(Clone, Copy, PartialEq, Eq, Default, Debug)]
pub struct Binding {
    pub kind: u16,
    pub number: u16,
}
