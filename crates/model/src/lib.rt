// Document 01 as definitions (specs/) and the theorems about them (proofs/). The only code is the sizes by name; for contracts the same numbers
// stand in specs/Grammar, those of dependences in specs/Directions.
#![tactic(auto)]

// ---- the most that a nest has

// statements
pub const STATEMENTS: usize = 4;

// accesses that a statement writes
pub const WRITES: usize = 1;

// accesses that a statement reads
pub const READS: usize = 4;

// accesses of all statements
pub const ACCESSES: usize = STATEMENTS * (WRITES + READS);

// arrays
pub const ARRAYS: usize = 4;

// dimensions of an array
pub const DIMENSIONS: usize = 3;

// an extent
pub const EXTENT: usize = 4096;

// elements of all arrays
pub const ELEMENTS: usize = 16384;

// loops of a ticket's nest
pub const TICKET_LOOPS: usize = 4;

// loops after all sections
pub const LOOPS: usize = 6;

// limits of a side of a loop in a ticket
pub const TICKET_LIMITS: usize = 4;

// limits of a side of a loop after a step
pub const LIMITS: usize = 16;

// sides of all loops: a lower and an upper one each
pub const SIDES: usize = LOOPS * 2;

// limits of all sides
pub const NEST_LIMITS: usize = SIDES * LIMITS;

// points
pub const POINTS: usize = 4096;

// kinds of steps
pub const STEP_KINDS: usize = 5;

// ---- the words of a nest that is laid out flat

// of a limit or a subscript: a coefficient for each loop, and two more
pub const ROW_ROOM: usize = LOOPS + 2;

// of all limits
pub const NEST_ROOM: usize = NEST_LIMITS * ROW_ROOM;

// of an array: how many dimensions it has, and their extents
pub const ARRAY_ROOM: usize = DIMENSIONS + 1;

// of all arrays
pub const EXTENTS: usize = ARRAYS * ARRAY_ROOM;

// of an access
pub const ACCESS_ROOM: usize = DIMENSIONS * ROW_ROOM;

// of all accesses
pub const WORDS: usize = ACCESSES * ACCESS_ROOM;

// ---- elements and dependences

// the numbers of the elements that all accesses have at all points
pub const NUMBERS: usize = ACCESSES * POINTS;

// kinds of dependences: flow, anti, output
pub const KINDS: usize = 3;

// direction vectors of all loops
pub const VECTORS: usize = 729;

// marks of a pair of statements: one for each kind and vector
pub const PAIR_MARKS: usize = KINDS * VECTORS;

// marks of all pairs of statements
pub const MARKS: usize = STATEMENTS * STATEMENTS * PAIR_MARKS;
