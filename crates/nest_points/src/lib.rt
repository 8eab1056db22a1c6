// The iteration points of a loop nest: how many there are, whether one is far, and all of them in order. A nest is lent as flat slices (crate flat
// nest), the indices outside a loop as a slice.
#![tactic(auto)]

ghost use Rattle.std.specs.Prelude.{◌≡◌, [], ◌∷◌, ◌++◌, suc, ◌+◌, ◌≤◌, ◌<◌, pos, ◌+ℤ◌, length, take};
ghost use Rattle.lists.specs.Parts.{put};
ghost use Rattle.nest_flat.specs.Flat.{loop_at};
ghost use Rattle.nest_flat.specs.FlatNests.{flat, FlatNestIn};
ghost use Rattle.nest_index_range.specs.Ranges.{Narrow};
ghost use Rattle.nest_points.specs.Tallies.{through, capped, outside, seen, Bounded, IncludeIn, TallyIn, Tallied};
ghost use Rattle.nest_points.specs.Stored.{CollectIn, Collected};
ghost use Rattle.nest_points.specs.Nests.{NestSurveyed, ListIn, PointsAre};

use model::LOOPS;
use nest_flat::FlatNest;
use nest_index_range::Ends;

// What a survey of one depth has seen: a far index, and how many points, or one more than are allowed.
#[derive(Clone, Copy)]
pub struct Tally {
    pub far: bool,
    pub count: usize,
}

fn capped(n: usize, most: usize) -> usize
    requires { most ≤ 65536 }
    ensures { result ≡ Rattle.nest_points.specs.Tallies.capped most n }
{
    n.min(most + 1)
}

// Whether an end lies beyond the bound.
fn outside(e: Ends, bound: usize) -> bool
    requires { (bound ≤ 100000) × Narrow e.lo × Narrow e.hi }
    ensures { result ≡ Rattle.nest_points.specs.Tallies.outside bound e.lo e.hi }
{
    let b = bound as i64;
    e.lo < -b || b < e.hi
}

// The tally with the points that go on from the indices outer by one loop: the ends of its range decide.
fn include(
    nest: &[i16],
    counts: &[usize],
    outer: &[i64],
    bound: usize,
    most: usize,
    a: Tally,
) -> Tally
    requires { IncludeIn nest.now counts.now outer.now bound most a }
    ensures { (result ≡ seen bound most a (through (loop_at nest.now counts.now (length outer.now) ∷ [])
        outer.now)) × (result.count ≤ suc most) }
{
    let e = nest_index_range::range(nest, counts, outer);
    let n = nest_index_range::index_count(e);
    if n == 0 {
        return a;
    }
    let far = outside(e, bound);
    Tally {
        far: a.far | far,
        count: capped(a.count + n, most),
    }
}

// The tally with the points that go on from the first k indices of a point by the next `left` loops. The last loop's range is not walked.
// The indices of the point from k on are overwritten.
pub fn tally_points(
    nest: &[i16],
    counts: &[usize],
    k: usize,
    left: usize,
    point: &mut [i64],
    bound: usize,
    most: usize,
    a: Tally,
) -> Tally
    requires { TallyIn nest.now counts.now k left point.old bound most a × (k + left ≤ length point.old) }
    ensures { Tallied nest.now counts.now k left point.old bound most a result
        × (take k point.new ≡ take k point.old) }
{
    if left == 1 {
        return include(nest, counts, &point[..k], bound, most, a);
    }
    let e = nest_index_range::range(nest, counts, &point[..k]);
    let n = nest_index_range::index_count(e);
    let mut b = a;
    for t in 0..n {
        point[k] = e.lo + (t as i64);
        b = tally_points(nest, counts, k + 1, left - 1, point, bound, most, b);
    }
    b
}

// The first depth of a nest that does not keep its bounds.
#[derive(Clone, Copy)]
pub enum SpaceError {
    // document 01: far index
    IndexTooLarge(usize),
    // document 01: crowded
    CountTooLarge(usize),
}

// Depth by depth, a partial point whose last index is beyond ±bound, then more than `most` of them; returns the number of points.
pub fn survey(nest: &FlatNest, bound: usize, most: usize) -> Result<usize, SpaceError>
    requires { FlatNestIn (flat nest.now) × Bounded bound most }
    ensures { NestSurveyed (flat nest.now) bound most result }
{
    let counts = &nest.header.counts;
    let depth = nest.header.depth;
    let mut count = 0;
    for level in 1..=depth {
        let none = Tally {
            far: false,
            count: 0,
        };
        let mut point = [0; LOOPS];
        let seen = tally_points(nest.limits, counts, 0, level, &mut point, bound, most, none);
        count = seen.count;
        let far = seen.far;
        let many = most < count;
        if far {
            return Err(SpaceError::IndexTooLarge(level));
        }
        if many {
            return Err(SpaceError::CountTooLarge(level));
        }
    }
    Ok(count)
}

// Writes a row into out from place at on.
pub fn store(out: &mut [i64], at: usize, row: &[i64])
    requires { at + length row.now ≤ length out.old }
    ensures { out.new ≡ put out.old at row.now }
{
    // not `copy_from_slice`: the points of a nest are listed a quarter slower with it, since a row is short
    for (j, &index) in row.iter().enumerate() {
        out[at + j] = index;
    }
}

// Writes the indices outer, and after them the index t places after the first of a range.
fn store_point(out: &mut [i64], at: usize, outer: &[i64], e: Ends, t: usize)
    requires { (at + length outer.now < length out.old) × Narrow e.lo × (t ≤ 68719476737) }
    ensures { out.new ≡ put out.old at (outer.now ++ ((e.lo +ℤ pos t) ∷ [])) }
{
    store(out, at, outer);
    out[at + outer.len()] = e.lo + (t as i64);
}

// Writes the points that go on from the indices outer by one loop; returns the place after them.
fn collect_last(nest: &[i16], counts: &[usize], outer: &[i64], out: &mut [i64], at: usize) -> usize
    requires { CollectIn nest.now counts.now (length outer.now) 1 outer.now (length out.old) at }
    ensures { Collected nest.now counts.now (length outer.now) 1 outer.now out.old
        out.new at result }
{
    let e = nest_index_range::range(nest, counts, outer);
    let n = nest_index_range::index_count(e);
    let width = outer.len() + 1;
    let mut p = at;
    for t in 0..n {
        store_point(out, p, outer, e, t);
        p += width;
    }
    p
}

// Writes the points that go on from the first k indices of a point by the next `left` loops into out, in order; returns the place after them.
// The indices of the point from k on are overwritten.
fn collect(
    nest: &[i16],
    counts: &[usize],
    k: usize,
    left: usize,
    point: &mut [i64],
    out: &mut [i64],
    at: usize,
) -> usize
    requires { CollectIn nest.now counts.now k left (take k point.old) (length out.old) at × (k + left ≤ length point.old) }
    ensures { Collected nest.now counts.now k left (take k point.old) out.old out.new
        at result × (take k point.new ≡ take k point.old) }
{
    if left == 1 {
        return collect_last(nest, counts, &point[..k], out, at);
    }
    let e = nest_index_range::range(nest, counts, &point[..k]);
    let n = nest_index_range::index_count(e);
    let mut p = at;
    for t in 0..n {
        point[k] = e.lo + (t as i64);
        p = collect(nest, counts, k + 1, left - 1, point, out, p);
    }
    p
}

// All points, row by row in order; returns how many.
pub fn list_points(nest: &FlatNest, points: &mut [i64]) -> usize
    requires { ListIn (flat nest.now) (length points.old) }
    ensures { PointsAre (flat nest.now) points.new result
        × (length points.new ≡ length points.old) }
{
    let counts = &nest.header.counts;
    let depth = nest.header.depth;
    let mut point = [0; LOOPS];
    let end = collect(nest.limits, counts, 0, depth, &mut point, points, 0);
    end / depth
}
