// Refusal 9 of a nest that passes 7 and 8, or the lines of its listing and the directions of the nest. Few points are searched; of many the search is
// made where the lines are not known without them.
#![tactic(auto)]

ghost use Rattle.std.specs.Prelude.{◌≡◌, ◌*◌, ◌≤◌, length};
ghost use Rattle.model.specs.Grammar.{ticket_loops, most_points, most_statements};
ghost use Rattle.dependence_vectors.specs.Numbers.{marks_for};
ghost use Rattle.model.specs.Directions.{vector_count};
ghost use Rattle.nest_flat.specs.FlatNests.{flat};
ghost use Rattle.nest_admission.specs.Admission.{EnumerateIn, SpaceAccepted, PointsCounted};
ghost use Rattle.dependence_bounds.specs.KnownLines.{Room};
ghost use Rattle.dependence_directions.specs.SearchResults.{FindIn, Finds, Directs};

use model::{MARKS, PAIR_MARKS};
use nest_flat::FlatNest;
use ticket_refusals::Refusal;

// ---- lines: the marks of those that there are

// Of few points, with room for ROOM indices. In a frame of its own, so that fewer points have fewer indices to clear.
#[inline(never)]
fn find_in_room<const ROOM: usize>(
    nest: &FlatNest,
    count: usize,
    marks: &mut [bool],
) -> Result<(), Refusal>
    requires { FindIn (flat nest.now) count marks.old × (count ≤ 256)
        × EnumerateIn (flat nest.now) ROOM × (ROOM ≤ 1024) }
    ensures { Finds (flat nest.now) result marks.new }
{
    let mut points = [0i64; ROOM];
    nest_admission::enumerate(nest, &mut points)?;
    dependence_marks::mark_few(nest, &points, count, marks);
    Ok(())
}

// Of few points; fewer have fewer indices to clear. Apart from `find_many`, as `mark_few` is in `dependence_marks`; its callers ask for one or the
// other.
pub fn find_few(nest: &FlatNest, count: usize, marks: &mut [bool]) -> Result<(), Refusal>
    requires { FindIn (flat nest.now) count marks.old × (count ≤ 256) }
    ensures { Finds (flat nest.now) result marks.new }
{
    if count <= 32 {
        return find_in_room::<128>(nest, count, marks);
    }
    find_in_room::<1024>(nest, count, marks)
}

// Of many points, whose lines are not known without them. What the marks held is lost.
pub fn find_many(nest: &FlatNest, marks: &mut [bool]) -> Result<(), Refusal>
    requires { SpaceAccepted (flat nest.now)
        × EnumerateIn (flat nest.now) (ticket_loops * most_points)
        × Room (flat nest.now) marks.old }
    ensures { Finds (flat nest.now) result marks.new }
{
    nest_admission::admit_many(nest)?;
    dependence_marks::clear_marks(marks);
    dependence_marks::mark_many(nest, marks);
    Ok(())
}

// Of few points, or of many: without them, or by them.
fn find_lines(nest: &FlatNest, count: usize, marks: &mut [bool]) -> Result<(), Refusal>
    requires { FindIn (flat nest.now) count marks.old }
    ensures { Finds (flat nest.now) result marks.new }
{
    if count <= 256 {
        return find_few(nest, count, marks);
    }
    if dependence_bounds::mark_lines(nest, marks) {
        return Ok(());
    }
    find_many(nest, marks)
}

// ---- directions: the vectors of the lines

// Makes their set, with room for ROOM marks. In a frame of its own, so that fewer statements have fewer marks to clear.
#[inline(never)]
fn find_directions_in_room<const ROOM: usize>(
    nest: &FlatNest,
    count: usize,
    set: &mut [bool],
) -> Result<(), Refusal>
    requires { PointsCounted (flat nest.now) count × (marks_for (flat nest.now).statements ≤ ROOM)
        × (ROOM ≤ marks_for most_statements) × (length set.old ≡ vector_count) }
    ensures { Directs (flat nest.now) result set.new }
{
    let mut marks = [false; ROOM];
    find_lines(nest, count, &mut marks)?;
    dependence_marks::merge_directions(&marks, nest.header.statements, nest.header.depth, set);
    Ok(())
}

// The marks of two statements.
const TWO_STATEMENT_MARKS: usize = 2 * 2 * PAIR_MARKS;

// Few statements have fewer marks to clear.
pub fn find_directions(nest: &FlatNest, count: usize, set: &mut [bool]) -> Result<(), Refusal>
    requires { PointsCounted (flat nest.now) count × (length set.old ≡ vector_count) }
    ensures { Directs (flat nest.now) result set.new }
{
    if nest.header.statements <= 1 {
        return find_directions_in_room::<PAIR_MARKS>(nest, count, set);
    }
    if nest.header.statements <= 2 {
        return find_directions_in_room::<TWO_STATEMENT_MARKS>(nest, count, set);
    }
    find_directions_in_room::<MARKS>(nest, count, set)
}
