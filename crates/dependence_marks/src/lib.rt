// The lines of a nest's listing, found in its flat form: a mark for each that there could be; and the set of their vectors.
#![tactic(auto)]

ghost use Rattle.std.specs.Prelude.{◌≡◌, false, ℕ, ◌*◌, ◌≤◌, length, get_or, replicate};
ghost use Rattle.lists.specs.Parts.{put};
ghost use Rattle.model.specs.Grammar.{ticket_loops, most_points, most_numbers};
ghost use Rattle.model.specs.Directions.{vector_count};
ghost use Rattle.dependence_listing_text.specs.Text.{Marks};
ghost use Rattle.nest_flat.specs.FlatNests.{flat, FlatNestIn};
ghost use Rattle.nest_points.specs.Nests.{ListIn};
ghost use Rattle.dependence_marks.specs.Uses.{first_written, EnterIn, UsesAre};
ghost use Rattle.dependence_marks.specs.Lines.{Markable, LinesIn, LinesAre, Shows};

use dependence_search::NumberedNest;
use model::{ACCESSES, KINDS, NUMBERS, POINTS, TICKET_LOOPS, VECTORS};
use nest_flat::FlatNest;

// Of each access its statement, counted from 0, and whether it is the one that is written.
#[derive(Clone, Copy)]
pub struct Uses {
    pub statements: [usize; ACCESSES],
    pub writes: [bool; ACCESSES],
}

// Enters statement s, with so many accesses from `first` on.
fn enter(statements: &mut [usize], writes: &mut [bool], first: usize, size: usize, s: usize)
    requires { EnterIn statements.old writes.old first size }
    ensures { (statements.new ≡ put statements.old first (replicate size s))
        × (writes.new ≡ put writes.old first (first_written size)) }
{
    for k in 0..size {
        statements[first + k] = s;
        writes[first + k] = k == 0;
    }
}

// The first accesses of all are those of the first statement, and so on.
pub fn uses_of(nest: &FlatNest) -> Uses
    requires { FlatNestIn (flat nest.now) }
    ensures { UsesAre (flat nest.now) result }
{
    let sizes = &nest.header.sizes;
    let mut statements = [0; ACCESSES];
    let mut writes = [false; ACCESSES];
    let mut first = 0;
    for s in 0..nest.header.statements {
        let size = sizes[s];
        enter(&mut statements, &mut writes, first, size, s);
        first += size;
    }
    Uses { statements, writes }
}

// Marks every line of the nest's listing, where the dependence search lays its mark. Lent is room for a number of each access at each point.
fn mark_using_numbers(
    nest: &FlatNest,
    points: &[i64],
    count: usize,
    numbers: &mut [u16],
    marks: &mut [bool],
)
    requires { LinesIn (flat nest.now) points.now count marks.old
        × ((flat nest.now).accesses * count ≤ length numbers.old) }
    ensures { LinesAre (flat nest.now) marks.new
        × (length marks.new ≡ length marks.old) }
{
    nest_elements::number_accesses(nest, points, count, numbers);
    let uses = uses_of(nest);
    let statements = uses.statements;
    let writes = uses.writes;
    let accesses = nest.header.accesses;
    let elements = nest_elements::elements_in(nest);
    let nest = NumberedNest {
        points,
        depth: nest.header.depth,
        count,
        numbers,
        statements: &statements[..accesses],
        writes: &writes[..accesses],
        body: nest.header.statements,
    };
    dependence_search::dependences(&nest, elements, marks);
}

// The same with room for ROOM numbers. In a frame of its own, so that few numbers do not pass through the room of many.
#[inline(never)]
fn mark_in_room<const ROOM: usize>(
    nest: &FlatNest,
    points: &[i64],
    count: usize,
    marks: &mut [bool],
)
    requires { LinesIn (flat nest.now) points.now count marks.old
        × ((flat nest.now).accesses * count ≤ ROOM) × (ROOM ≤ most_numbers) }
    ensures { LinesAre (flat nest.now) marks.new
        × (length marks.new ≡ length marks.old) }
{
    let mut numbers = [0u16; ROOM];
    mark_using_numbers(nest, points, count, &mut numbers, marks);
}

// The numbers of all accesses at few points, and of 4 accesses, and of 10, at all points.
const FEW_POINT_NUMBERS: usize = ACCESSES * 256;

const FEW_NUMBERS: usize = 4 * POINTS;

const MORE_NUMBERS: usize = 10 * POINTS;

// The same of few points: fewer accesses have fewer numbers to clear. Apart from `mark_many`, whose room would be walked through page by page here
// too.
pub fn mark_few(nest: &FlatNest, points: &[i64], count: usize, marks: &mut [bool])
    requires { LinesIn (flat nest.now) points.now count marks.old × (count ≤ 256) }
    ensures { LinesAre (flat nest.now) marks.new
        × (length marks.new ≡ length marks.old) }
{
    let needed = nest.header.accesses * count;
    if needed <= 160 {
        mark_in_room::<160>(nest, points, count, marks);
    } else if needed <= 1024 {
        mark_in_room::<1024>(nest, points, count, marks);
    } else {
        mark_in_room::<FEW_POINT_NUMBERS>(nest, points, count, marks);
    }
}

// The same of any number of points, which are listed here.
pub fn mark_many(nest: &FlatNest, marks: &mut [bool])
    requires { Markable (flat nest.now) marks.old
        × ListIn (flat nest.now) (ticket_loops * most_points) }
    ensures { LinesAre (flat nest.now) marks.new
        × (length marks.new ≡ length marks.old) }
{
    let mut points = [0i64; TICKET_LOOPS * POINTS];
    let count = nest_points::list_points(nest, &mut points);
    let needed = nest.header.accesses * count;
    if needed <= FEW_NUMBERS {
        mark_in_room::<FEW_NUMBERS>(nest, &points, count, marks);
    } else if needed <= MORE_NUMBERS {
        mark_in_room::<MORE_NUMBERS>(nest, &points, count, marks);
    } else {
        mark_in_room::<NUMBERS>(nest, &points, count, marks);
    }
}

// Takes all marks away. Not by `fill`: a must-fail edit of this loop leaves every other mark.
pub fn clear_marks(marks: &mut [bool])
    ensures { ((j : ℕ) → get_or marks.new j false ≡ false) × (length marks.new ≡ length marks.old) }
{
    for j in 0..marks.len() {
        marks[j] = false;
    }
}

// Makes the set of the vectors of the lines that are marked: a row of VECTORS marks for each source, sink and kind.
pub fn merge_directions(marks: &[bool], n: usize, depth: usize, set: &mut [bool])
    requires { Marks marks.now n depth × (length set.old ≡ vector_count) }
    ensures { Shows marks.now n depth set.new }
{
    let blocks = n * n * KINDS;
    step_directions::clear_vectors(set, depth);
    for b in 0..blocks {
        step_directions::merge(set, &marks[b * VECTORS..b * VECTORS + VECTORS], depth);
    }
}
