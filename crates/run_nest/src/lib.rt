// The run of an accepted nest in its flat form.
#![tactic(auto)]

ghost use Rattle.std.specs.Prelude.{◌≡◌, ◌*◌, ◌≤◌, length};
ghost use Rattle.lists.specs.Parts.{rows};
ghost use Rattle.model.specs.Grammar.{most_loops};
ghost use Rattle.model.specs.Store.{run_nest};
ghost use Rattle.nest_flat.specs.FlatNests.{flat, nest_of};
ghost use Rattle.nest_points.specs.Nests.{PointsAre};
ghost use Rattle.run_statements.specs.Runs.{run_at};
ghost use Rattle.run_nest.specs.Execution.{ExecuteIn, PartIn};

use model::{ACCESSES, LOOPS, POINTS};
use nest_flat::FlatNest;

// Runs the statements at the points of a part of the nest. Lent is room for a number of each access at each point.
fn run_part(nest: &FlatNest, points: &[i64], count: usize, numbers: &mut [u16], store: &mut [u32])
    requires { PartIn (flat nest.now) points.now count (length store.old)
        × ((flat nest.now).accesses * count ≤ length numbers.old) }
    ensures { store.new ≡ run_at (nest_of (flat nest.now))
        (rows (flat nest.now).depth count points.now) store.old }
{
    nest_elements::number_accesses(nest, points, count, numbers);
    run_statements::run_at_points(nest, points, count, numbers, store);
}

// The points of the next part, when so many are left.
fn part_size(left: usize) -> usize
    requires { 1 ≤ left }
    ensures { (1 ≤ result) × (result ≤ left) × (result ≤ 256) }
{
    left.min(256)
}

// Runs the nest of a flat nest at its points, in parts of at most 256, whose numbers stay in the cache. Lent is room for those of one part.
fn run_parts(nest: &FlatNest, points: &[i64], count: usize, numbers: &mut [u16], store: &mut [u32])
    requires { ExecuteIn (flat nest.now) count (length store.old)
        × PointsAre (flat nest.now) points.now count × ((flat nest.now).accesses * 256 ≤ length numbers.old) }
    ensures { store.new ≡ run_nest (nest_of (flat nest.now)) store.old }
{
    let depth = nest.header.depth;
    let mut first = 0;
    // not a `for` over steps of 256: the last part is shorter, and `first` ends at the count, which the invariant speaks of
    while first < count {
        let n = part_size(count - first);
        run_part(nest, &points[first * depth..], n, numbers, store);
        first += n;
    }
}

// Of many points. Apart from `run_few`, whose frame would be walked through page by page with this room too.
fn run_many(nest: &FlatNest, count: usize, numbers: &mut [u16], store: &mut [u32])
    requires { ExecuteIn (flat nest.now) count (length store.old) × ((flat nest.now).accesses * 256 ≤ length numbers.old) }
    ensures { store.new ≡ run_nest (nest_of (flat nest.now)) store.old }
{
    let mut points = [0i64; LOOPS * POINTS];
    nest_points::list_points(nest, &mut points);
    run_parts(nest, &points, count, numbers, store);
}

// Of few points, one part. Lent is room for their indices and for the numbers of their accesses.
fn run_listed(
    nest: &FlatNest,
    count: usize,
    points: &mut [i64],
    numbers: &mut [u16],
    store: &mut [u32],
)
    requires { ExecuteIn (flat nest.now) count (length store.old) × (count * most_loops ≤ length points.old)
        × ((flat nest.now).accesses * count ≤ length numbers.old) }
    ensures { store.new ≡ run_nest (nest_of (flat nest.now)) store.old }
{
    nest_points::list_points(nest, points);
    run_part(nest, points, count, numbers, store);
}

// The same. Fewer points and accesses have less room to clear.
fn run_few(nest: &FlatNest, count: usize, store: &mut [u32])
    requires { ExecuteIn (flat nest.now) count (length store.old) × (count ≤ 256) }
    ensures { store.new ≡ run_nest (nest_of (flat nest.now)) store.old }
{
    if count <= 32 {
        let mut few_points = [0i64; 32 * LOOPS];
        let mut few = [0u16; ACCESSES * 32];
        run_listed(nest, count, &mut few_points, &mut few, store);
        return;
    }
    let mut points = [0i64; 256 * LOOPS];
    if nest.header.accesses * count <= 1024 {
        let mut more = [0u16; 1024];
        run_listed(nest, count, &mut points, &mut more, store);
        return;
    }
    let mut numbers = [0u16; ACCESSES * 256];
    run_listed(nest, count, &mut points, &mut numbers, store);
}

// Runs the nest of a flat nest, which has `count` points, of at most six indices each.
pub fn execute(nest: &FlatNest, count: usize, store: &mut [u32])
    requires { ExecuteIn (flat nest.now) count (length store.old) }
    ensures { store.new ≡ run_nest (nest_of (flat nest.now)) store.old }
{
    if count <= 256 {
        run_few(nest, count, store);
        return;
    }
    if nest.header.accesses <= 4 {
        let mut few = [0u16; 4 * 256];
        run_many(nest, count, &mut few, store);
        return;
    }
    let mut numbers = [0u16; ACCESSES * 256];
    run_many(nest, count, &mut numbers, store);
}
