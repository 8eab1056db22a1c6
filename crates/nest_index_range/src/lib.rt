// The range of a loop at its outer indices, on flat slices: the limits that hold there, rounded.
#![tactic(auto)]

ghost use Rattle.std.specs.Prelude.{◌≡◌, pos, ◌<ℤ◌, ◌+◌, ◌≤◌, ◌<◌, ◌-ℤ◌, length};
ghost use Rattle.model.specs.Grammar.{most_loops};
ghost use Rattle.model.specs.Points.{value, span};
ghost use Rattle.nest_flat.specs.Flat.{limit_at, loop_at};
ghost use Rattle.nest_index_range.specs.Sides.{other, place, rounded, tighter};
ghost use Rattle.nest_index_range.specs.Ranges.{Narrow, allowed, end, LimitIn, DivisorIn, EndIn, RangeIn, Ranged};

// What limit j has against its multiplier times the index: the constant and the coefficients times the indices outside.
fn limit_value(nest: &[i16], j: usize, outer: &[i64]) -> i64
    requires { LimitIn nest.now j outer.now }
    ensures { (result ≡ Rattle.model.specs.Points.value (limit_at nest.now (length outer.now) j) outer.now)
        × Narrow result }
{
    integers::affine_at(nest, j * 8 + 1, outer)
}

// The two sides of a loop: what a lower limit allows is rounded up, and the largest counts; of upper ones it is rounded down, and the smallest counts.
#[derive(Clone, Copy)]
pub enum Side {
    Lower,
    Upper,
}

impl Side {
    // The side across the range.
    pub fn other(self) -> Side
        ensures { result ≡ other self }
    {
        match self {
            Side::Lower => Side::Upper,
            Side::Upper => Side::Lower,
        }
    }

    // Where a side of loop k stands among the sides of a nest: its count, and its limits in steps of 16.
    pub fn place(self, k: usize) -> usize
        requires { k < most_loops }
        ensures { result ≡ place self k }
    {
        match self {
            Side::Lower => k * 2,
            Side::Upper => k * 2 + 1,
        }
    }

    // a divided by b, rounded as the limits of the side are.
    pub fn divide(self, a: i64, b: i64) -> i64
        requires { pos 0 <ℤ b }
        ensures { result ≡ rounded self a b }
    {
        match self {
            Side::Lower => integers::ceil_div(a, b),
            Side::Upper => integers::floor_div(a, b),
        }
    }

    // The one of two indices that counts.
    pub fn tighter(self, x: i64, y: i64) -> i64
        ensures { result ≡ tighter self x y }
    {
        match self {
            Side::Lower => x.max(y),
            Side::Upper => x.min(y),
        }
    }
}

// A number that functions hand on: in a struct, so that a proof sees the integer and not its bits.
#[derive(Clone, Copy)]
pub struct Whole {
    pub value: i64,
}

// The last index that limit j of a side allows: the smallest by a lower limit, the largest by an upper one.
fn limit_index(side: Side, nest: &[i16], j: usize, outer: &[i64]) -> i64
    requires { DivisorIn nest.now j outer.now }
    ensures { (result ≡ allowed side outer.now (limit_at nest.now (length outer.now) j)) × Narrow result }
{
    side.divide(limit_value(nest, j, outer), integers::word(nest, j * 8))
}

// The end of a loop's range at a side: the index that counts of what its limits allow, the last one first.
#[inline(always)]
fn end_index(side: Side, nest: &[i16], counts: &[usize], outer: &[i64]) -> i64
    requires { EndIn side nest.now counts.now outer.now }
    ensures { (result ≡ end side nest.now counts.now outer.now) × Narrow result }
{
    let place = side.place(outer.len());
    let j = place * 16;
    let n = counts[place];
    let mut end = limit_index(side, nest, j + (n - 1), outer);
    for i in (0..n - 1).rev() {
        end = side.tighter(limit_index(side, nest, j + i, outer), end);
    }
    end
}

// The first and the last index of a loop; the range is empty where the first exceeds the last.
#[derive(Clone, Copy)]
pub struct Ends {
    pub lo: i64,
    pub hi: i64,
}

// The ends of the loop that stands inside the indices outer.
pub fn range(nest: &[i16], counts: &[usize], outer: &[i64]) -> Ends
    requires { RangeIn nest.now counts.now outer.now }
    ensures { Ranged (loop_at nest.now counts.now (length outer.now)) outer.now result.lo result.hi }
{
    Ends {
        lo: end_index(Side::Lower, nest, counts, outer),
        hi: end_index(Side::Upper, nest, counts, outer),
    }
}

// How many indices there are from the one end to the other.
pub fn index_count(e: Ends) -> usize
    requires { Narrow e.lo × Narrow e.hi }
    ensures { (result ≡ span (e.hi -ℤ e.lo)) × (result ≤ 68719476737) }
{
    if e.hi < e.lo {
        0
    } else {
        (e.hi - e.lo) as usize + 1
    }
}
