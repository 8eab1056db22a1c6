// The corner or the centre of an iteration space: the nest with one more limit on a side of each loop, or on both, so that few of its points are
// left.
#![tactic(auto)]

ghost use Rattle.std.specs.Prelude.{◌≤◌, ◌<◌};
ghost use Rattle.integers.specs.Difference.{size};
ghost use Rattle.nest_flat.specs.Flat.{NestOk};
ghost use Rattle.nest_loop_ranges.specs.Ranges.{range_as, NearRange, RangesIn};
ghost use Rattle.dependence_subspace.specs.Subspaces.{ShortenIn, Shortens, Narrower};

use model::{LIMITS, LOOPS};
use nest_loop_ranges::Range;

// A part of a nest has few values of each loop: the least ones, or those round the middle.
#[derive(Clone, Copy)]
pub enum Part {
    Corner,
    Centre,
}

// Gives loop k the limit v more, on side 0 a lower one and on side 1 an upper one, where there is room and v is within ±32767.
fn add_limit(limits: &mut [i16], counts: &mut [usize], k: usize, side: usize, v: i32)
    requires { ShortenIn limits.old counts.old k × (side < 2) }
    ensures { Shortens limits.old counts.old k limits.new counts.new }
{
    let n = counts[k * 2 + side];
    if n < LIMITS {
        let limit = step_loops::constant_limit(v);
        if step_limits::put_limit(limits, k * 32 + side * 16 + n, limit, k).is_ok() {
            counts[k * 2 + side] = n + 1;
        }
    }
}

// How many values a loop of a part has after the first: no more than 81 points are left.
fn value_count(depth: usize) -> i64
    ensures { size result ≤ 64 }
{
    match depth {
        1 => 63,
        2 => 7,
        3 => 3,
        _ => 2,
    }
}

// The first of them. Round the middle, it is as far from the least value of the loop as the last is from the greatest, or one nearer.
fn first_value(r: Range, places: i64, part: Part) -> i64
    requires { NearRange (range_as r) × (size places ≤ 64) }
    ensures { size result ≤ 65598 }
{
    match part {
        Part::Corner => r.least,
        Part::Centre => integers::floor_div(r.least + r.greatest - places, 2),
    }
}

// Leaves loop k these values.
fn restrict_loop(
    limits: &mut [i16],
    counts: &mut [usize],
    k: usize,
    r: Range,
    places: i64,
    part: Part,
)
    requires { ShortenIn limits.old counts.old k × NearRange (range_as r) × (size places ≤ 64) }
    ensures { Shortens limits.old counts.old k limits.new counts.new }
{
    let first = first_value(r, places, part);
    add_limit(limits, counts, k, 1, (first + places) as i32);
    if r.least < first {
        add_limit(limits, counts, k, 0, first as i32);
    }
}

// Leaves a part in place of the nest whose loops have these ranges.
pub fn restrict_nest(
    limits: &mut [i16],
    counts: &mut [usize],
    depth: usize,
    ranges: [Range; LOOPS],
    part: Part,
)
    requires { NestOk limits.old counts.old depth × RangesIn depth ranges }
    ensures { Narrower limits.old counts.old depth limits.new counts.new }
{
    for k in 0..depth {
        restrict_loop(limits, counts, k, ranges[k], value_count(depth), part);
    }
}
