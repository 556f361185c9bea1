// The limits of a sheet, one name each.

// The most nodes.
pub const NODES: usize = 512;

// The most letters.
pub const LETTERS: usize = 4096;

// The most variables.
pub const VARIABLES: usize = 64;

// The deepest level of an expression.
pub const LEVEL: u16 = 32;

// The deepest nest of a series.
pub const NEST: u16 = 16;
