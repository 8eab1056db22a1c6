// What accesses are read in, and the numbers of their arrays.
#![tactic(auto)]

ghost use Rattle.std.specs.Prelude.{◌≡◌, ◌≤◌, length};
ghost use Rattle.model.specs.Grammar.{most_loops, most_accesses};
ghost use Rattle.ticket_statements.specs.Arrays.{ArraysIn};

use model::ACCESSES;

// The number of loops, and the extents of all arrays.
#[derive(Clone, Copy)]
pub struct Nest<'a> {
    pub depth: usize,
    pub extents: &'a [usize],
    ghost shallow: { depth ≤ most_loops },
    ghost arrays: { ArraysIn extents.now },
}

// Of the first `count` accesses the numbers of their arrays. Their words are lent beside: at the end of a struct that holds a slice as `&mut`
// it is not proved what the slice became.
#[derive(Clone, Copy)]
pub struct Accesses {
    pub accessed: [usize; ACCESSES],
    pub count: usize,
    ghost room: { length accessed ≡ most_accesses },
    ghost few: { count ≤ most_accesses },
}
