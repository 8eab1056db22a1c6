// The flat form of a nest: its numbers on two slices that are lent, and beside them the rest by value.
#![tactic(auto)]

use model::{ACCESSES, EXTENTS, SIDES, STATEMENTS};

// All of a flat nest but its two large slices. As many arrays, statements and accesses are in use as the fields of these names say.
#[derive(Clone, Copy)]
pub struct Header {
    pub depth: usize,
    pub counts: [usize; SIDES],
    pub arrays: usize,
    pub extents: [usize; EXTENTS],
    pub statements: usize,
    pub sizes: [usize; STATEMENTS],
    pub rules: [usize; STATEMENTS],
    pub constants: [usize; STATEMENTS],
    pub accesses: usize,
    pub accessed: [usize; ACCESSES],
}

// A flat nest: its header, the words of all limits, and the words of all accesses.
#[derive(Clone, Copy)]
pub struct FlatNest<'a> {
    pub header: &'a Header,
    pub limits: &'a [i16],
    pub words: &'a [i16],
}
