// Where the steps of a ticket take the points of its nest. A point stands in the first places of a row, an index for each loop; loops are counted
// from 0.
#![tactic(auto)]

ghost use Rattle.std.specs.Prelude.{◌≡◌, ◌+◌, ◌<◌, ◌≤◌, neg_ℤ, ◌+ℤ◌, ◌-ℤ◌, ◌*ℤ◌, length, get_or, take, drop};
ghost use Rattle.lists.specs.Parts.{put};
ghost use Rattle.lists.specs.Place.{under, on_head, swap_all};
ghost use Rattle.integers.specs.Affine.{Within};
ghost use Rattle.integers.specs.Difference.{size};
ghost use Rattle.model.specs.Grammar.{most_loops};
ghost use Rattle.model.specs.Ticket.{exchange};
ghost use Rattle.model.specs.Steps.{skewed, sectioned, chain};
ghost use Rattle.nest_rows.specs.Rows.{RowIs};
ghost use Rattle.step_kinds.specs.Kinds.{step_of};
ghost use Rattle.ticket_steps.specs.Steps.{steps_of, StepsIn};
ghost use Rattle.step_points.specs.Points.{farthest, PointIn, PointAfter};
ghost use Rattle.step_points.specs.Points.{after_steps, StepsTaken, PointMoved, DepthAfter, PointsIn, PointsMoved};

use model::LOOPS;
use step_kinds::Step;
use ticket_steps::Steps;

// A point in the first `depth` places of a row.
#[derive(Clone, Copy)]
pub struct MovedPoint {
    pub row: [i64; LOOPS],
    pub depth: usize,
}

// ---- numbers, of 64 bits: one function for those of step_limits too would ask the bounds of a trait, and be longer than both

fn negate(x: i64) -> i64
    requires { size x ≤ farthest }
    ensures { result ≡ neg_ℤ x }
{
    -x
}

// x + c y
fn add_multiple(x: i64, c: i64, y: i64) -> i64
    requires { (size x ≤ farthest) × (size c ≤ 32767) × (size y ≤ farthest) }
    ensures { result ≡ x +ℤ (c *ℤ y) }
{
    x + c * y
}

// What is left of x after q widths.
fn take_widths(x: i64, w: i64, q: i64) -> i64
    requires { (size x ≤ farthest) × (size w ≤ 32767) × (size q ≤ farthest) }
    ensures { result ≡ x -ℤ w *ℤ q }
{
    x - w * q
}

// ---- the indices of a row, of which the first n count

// Index a changes sign.
fn reverse_index(row: [i64; LOOPS], n: usize, a: usize) -> [i64; LOOPS]
    requires { (a < n) × (n ≤ most_loops) × Within farthest (take n row) }
    ensures { RowIs n result (under a (on_head neg_ℤ) (take n row)) }
{
    let mut r = row;
    let x = row[a];
    r[a] = negate(x);
    r
}

// The index d + 1 places inside index a takes a multiple of it.
fn skew_index(row: [i64; LOOPS], n: usize, a: usize, d: usize, factor: i32) -> [i64; LOOPS]
    requires { (a + 1 + d < n) × (n ≤ most_loops) × (size factor ≤ 32767) × Within farthest (take n row) }
    ensures { RowIs n result (under a (skewed d factor) (take n row)) }
{
    let mut r = row;
    let b = a + 1 + d;
    let x = row[a];
    let y = row[b];
    let z = add_multiple(y, i64::from(factor), x);
    r[b] = z;
    r
}

// Index a becomes a section's number and a place in the section.
fn section_index(row: [i64; LOOPS], n: usize, a: usize, w: usize) -> [i64; LOOPS]
    requires { (a < n) × (n < most_loops) × (1 ≤ w) × (w ≤ 256) × Within farthest (take n row) }
    ensures { RowIs (n + 1) result (under a (sectioned w) (take n row)) }
{
    let mut r = nest_rows::double_place(row, n, a);
    let y = row[a];
    let v = w as i64;
    let q = integers::floor_div(y, v);
    let e = take_widths(y, v, q);
    r[a] = q;
    r[a + 1] = e;
    r
}

// Index a goes to place b, and those between close up.
fn circulate_indices(row: [i64; LOOPS], n: usize, a: usize, b: usize) -> [i64; LOOPS]
    requires { (a < n) × (b < n) × (n ≤ most_loops) }
    ensures { RowIs n result (swap_all (chain a b) (take n row)) }
{
    let count = step_kinds::chain_length(a, b);
    let mut r = row;
    for j in 0..count {
        let k = step_kinds::exchange_at(a, b, j);
        let next = nest_rows::exchange_places(r, n, k);
        r = next;
    }
    r
}

// ---- steps

// Where one step takes a point.
pub fn point_after(row: [i64; LOOPS], depth: usize, step: Step) -> [i64; LOOPS]
    requires { PointIn row depth (step_of step) }
    ensures { PointAfter row depth (step_of step) result }
{
    match step {
        Step::Exchange(e) => nest_rows::exchange_places(row, depth, e.outer),
        Step::Reversal(e) => reverse_index(row, depth, e.target),
        Step::Skew(e) => skew_index(row, depth, e.outer, e.distance, e.factor),
        Step::Section(e) => section_index(row, depth, e.target, e.width),
        Step::Circulation(e) => circulate_indices(row, depth, e.from, e.to),
    }
}

// Step k of a ticket, from 0.
fn step_at(steps: Steps, k: usize) -> Step
    requires { StepsIn steps × (k < steps.count) }
    ensures { step_of result ≡ get_or (steps_of steps) k (exchange 0) }
{
    let all = steps.steps;
    let numbered = all[k];
    numbered.step
}

// Where the first `done` steps take a point.
pub fn point_after_steps(row: [i64; LOOPS], depth: usize, steps: Steps, done: usize) -> MovedPoint
    requires { StepsTaken steps depth done × Within 100000 (take depth row) }
    ensures { PointMoved steps done (take depth row) result }
{
    let mut point = row;
    let mut loops = depth;
    for k in 0..done {
        let step = step_at(steps, k);
        let next = point_after(point, loops, step);
        point = next;
        loops = step_kinds::depth_after(step, loops);
    }
    MovedPoint {
        row: point,
        depth: loops,
    }
}

// How many indices a point has after them.
pub fn depth_after_steps(depth: usize, steps: Steps, done: usize) -> usize
    requires { StepsTaken steps depth done }
    ensures { DepthAfter steps depth done result }
{
    let mut level = depth;
    for k in 0..done {
        let step = step_at(steps, k);
        level = step_kinds::depth_after(step, level);
    }
    level
}

// ---- all points

// The point that stands in `points` from place `at` on.
fn row_at(points: &[i64], at: usize, depth: usize) -> [i64; LOOPS]
    requires { (at + depth ≤ length points.now) × (depth ≤ most_loops) }
    ensures { RowIs depth result (take depth (drop at points.now)) }
{
    let mut row = [0i64; LOOPS];
    for k in 0..depth {
        row[k] = points[at + k];
    }
    row
}

// Writes the point that the first `done` steps make of this one, from place `at` on.
fn store_moved(
    row: [i64; LOOPS],
    depth: usize,
    steps: Steps,
    done: usize,
    out: &mut [i64],
    at: usize,
)
    requires { StepsTaken steps depth done × Within 100000 (take depth row) × (at + most_loops ≤ length out.old) }
    ensures { out.new ≡ put out.old at (after_steps steps done (take depth row)) }
{
    let moved = point_after_steps(row, depth, steps, done);
    nest_points::store(out, at, &moved.row[..moved.depth]);
}

// Writes where the first `done` steps take each of `count` points, row by row; returns how many indices each has then.
pub fn move_points(
    points: &[i64],
    depth: usize,
    count: usize,
    steps: Steps,
    done: usize,
    out: &mut [i64],
) -> usize
    requires { PointsIn points.now depth count steps done (length out.old) }
    ensures { PointsMoved points.now depth count steps done out.new result
        × (length out.new ≡ length out.old) }
{
    let loops = depth_after_steps(depth, steps, done);
    for j in 0..count {
        let row = row_at(points, j * depth, depth);
        store_moved(row, depth, steps, done, out, j * loops);
    }
    loops
}
