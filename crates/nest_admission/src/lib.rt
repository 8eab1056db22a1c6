// Whether a nest in its flat form is admitted: refusals 7 and 8 and the count of its points, then its points and refusal 9.
#![tactic(auto)]

ghost use Rattle.std.specs.Prelude.{◌≡◌, ◌*◌, length};
ghost use Rattle.model.specs.Grammar.{ticket_loops, most_points};
ghost use Rattle.nest_elements.specs.Search.{answer_of};
ghost use Rattle.nest_flat.specs.FlatNests.{flat, FlatNestIn};
ghost use Rattle.nest_elements.specs.Nests.{NestSearched};
ghost use Rattle.nest_admission.specs.Admission.{Counts, FindIn, passed, PointsCounted, EnumerateIn, Admits, Enumerates};

use model::{POINTS, TICKET_LOOPS};
use nest_flat::FlatNest;
use nest_points::SpaceError;
use ticket_refusals::Refusal;

// The number of points, or refusal 7 or 8.
pub fn count_points(nest: &FlatNest) -> Result<usize, Refusal>
    requires { FlatNestIn (flat nest.now) }
    ensures { Counts (flat nest.now) result }
{
    match nest_points::survey(nest, 32767, POINTS) {
        Ok(count) => Ok(count),
        Err(SpaceError::IndexTooLarge(k)) => Err(Refusal::IndexOutOfRange(k)),
        Err(SpaceError::CountTooLarge(k)) => Err(Refusal::TooManyPoints(k)),
    }
}

// The number of the first statement that has a subscript which leaves its extent. Of many points the ranges of the loops are asked first.
fn find_violation_by_ranges(nest: &FlatNest, points: &[i64], count: usize) -> Option<usize>
    requires { FindIn (flat nest.now) points.now count }
    ensures { NestSearched (flat nest.now) result }
{
    if 32 < count && nest_bounding_box::stays_inside(nest) {
        return None;
    }
    nest_elements::find_violation(nest, points, count)
}

// Refusal 9 by what was found.
fn violation_status(violation: Option<usize>) -> Result<(), Refusal>
    ensures { passed result ≡ answer_of violation }
{
    match violation {
        Some(statement) => Err(Refusal::SubscriptOutOfBounds(statement)),
        None => Ok(()),
    }
}

// Writes the points row by row in order, then looks for a subscript that leaves its extent.
pub fn enumerate(nest: &FlatNest, points: &mut [i64]) -> Result<(), Refusal>
    requires { EnumerateIn (flat nest.now) (length points.old) }
    ensures { Enumerates (flat nest.now) points.old points.new result }
{
    let count = nest_points::list_points(nest, points);
    violation_status(find_violation_by_ranges(nest, points, count))
}

// The same by the points alone, which are not kept.
fn admit_by_points(nest: &FlatNest, points: &mut [i64]) -> Result<(), Refusal>
    requires { EnumerateIn (flat nest.now) (length points.old) }
    ensures { Admits (flat nest.now) result }
{
    let count = nest_points::list_points(nest, points);
    violation_status(nest_elements::find_violation(nest, points, count))
}

// The same of many points: without them, where the ranges of the loops show that refusal 9 is passed. Apart from `admit`, whose callers would
// walk through the room for many points page by page too.
pub fn admit_many(nest: &FlatNest) -> Result<(), Refusal>
    requires { EnumerateIn (flat nest.now) (ticket_loops * most_points) }
    ensures { Admits (flat nest.now) result }
{
    if nest_bounding_box::stays_inside(nest) {
        return Ok(());
    }
    let mut points = [0i64; TICKET_LOOPS * POINTS];
    admit_by_points(nest, &mut points)
}

// The same of so many points. Fewer have fewer indices to clear.
pub fn admit(nest: &FlatNest, count: usize) -> Result<(), Refusal>
    requires { PointsCounted (flat nest.now) count }
    ensures { Admits (flat nest.now) result }
{
    if count <= 32 {
        let mut few = [0i64; 32 * TICKET_LOOPS];
        return admit_by_points(nest, &mut few);
    }
    if nest_bounding_box::stays_inside(nest) {
        return Ok(());
    }
    if count <= 256 {
        let mut more = [0i64; 256 * TICKET_LOOPS];
        return admit_by_points(nest, &mut more);
    }
    admit_many(nest)
}
