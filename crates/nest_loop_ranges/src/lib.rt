// The least and the greatest value of every loop, and of sums over them.
#![tactic(auto)]

ghost use Rattle.std.specs.Prelude.{◌≡◌, true, false, suc, ◌+◌, ◌*◌, ◌≤◌, ◌<◌, ◌+ℤ◌, length, take, drop};
ghost use Rattle.integers.specs.Difference.{size};
ghost use Rattle.model.specs.Quick.{range_of, least_sum, greatest_sum};
ghost use Rattle.model.specs.Grammar.{nest_limits, nest_room, most_loops};
ghost use Rattle.nest_flat.specs.Flat.{NestOk, limit_at, loop_at};
ghost use Rattle.nest_loop_ranges.specs.Ranges.{range_as, ranges_of, term_by, TermIn, SumIn};
ghost use Rattle.nest_loop_ranges.specs.Extremes.{end_of, extreme_sum};
ghost use Rattle.nest_loop_ranges.specs.Values.{extreme_of, extreme_from, range_at, Free, LimitIn, SideIn, LoopIn};
ghost use Rattle.nest_loop_ranges.specs.Values.{RangesAre};

use model::LOOPS;
use nest_index_range::{Side, Whole};

// The least and the greatest value of an index.
#[derive(Clone, Copy)]
pub struct Range {
    pub least: i64,
    pub greatest: i64,
}

const NO_RANGE: Range = Range {
    least: 0,
    greatest: 0,
};

impl Range {
    // The end at a side.
    pub fn end(self, side: Side) -> i64
        ensures { result ≡ end_of side (range_as self) }
    {
        match side {
            Side::Lower => self.least,
            Side::Upper => self.greatest,
        }
    }
}

// The sum and a coefficient times an index: the one index where the coefficient is above 0, else the other.
fn plus_term(sum: Whole, c: i64, rising: i64, falling: i64) -> Whole
    requires { TermIn sum.value c rising falling }
    ensures { result.value ≡ sum.value +ℤ term_by c rising falling }
{
    let index = if 0 < c { rising } else { falling };
    Whole {
        value: sum.value + c * index,
    }
}

// The least that n coefficients from place at on, times their indices, can sum to, as lower limits ask; or the greatest, as upper ones do.
pub fn extreme_sum(side: Side, words: &[i16], at: usize, n: usize, ranges: [Range; LOOPS]) -> Whole
    requires { SumIn words.now at n ranges }
    ensures { (result.value ≡ extreme_sum side (take n (drop at words.now)) (ranges_of n ranges)) × (size result.value ≤ 6442057734) }
{
    let mut sum = Whole { value: 0 };
    for i in 0..n {
        let r = ranges[i];
        sum = plus_term(
            sum,
            integers::word(words, at + i),
            r.end(side),
            r.end(side.other()),
        );
    }
    sum
}

// The least alone.
pub fn least_sum(words: &[i16], at: usize, n: usize, ranges: [Range; LOOPS]) -> Whole
    requires { SumIn words.now at n ranges }
    ensures { (result.value ≡ least_sum (take n (drop at words.now)) (ranges_of n ranges)) × (size result.value ≤ 6442057734) }
{
    extreme_sum(Side::Lower, words, at, n, ranges)
}

// The greatest alone.
pub fn greatest_sum(words: &[i16], at: usize, n: usize, ranges: [Range; LOOPS]) -> Whole
    requires { SumIn words.now at n ranges }
    ensures { (result.value ≡ greatest_sum (take n (drop at words.now)) (ranges_of n ranges)) × (size result.value ≤ 6442057734) }
{
    extreme_sum(Side::Upper, words, at, n, ranges)
}

// The least index that lower limit j allows over the ranges of the k loops outside, or the greatest that upper limit j does.
fn limit_extreme(side: Side, nest: &[i16], j: usize, k: usize, outer: [Range; LOOPS]) -> i64
    requires { LimitIn nest.now j k outer }
    ensures { (result ≡ extreme_of side (ranges_of k outer) (limit_at nest.now k j)) × (size result ≤ 34359738368) }
{
    let e = extreme_sum(side, nest, j * 8 + 2, k, outer);
    let constant = integers::word(nest, j * 8 + 1);
    side.divide(constant + e.value, integers::word(nest, j * 8))
}

// The tightest of what n limits of a side from limit j on allow, the last one first.
fn side_extreme(
    side: Side,
    nest: &[i16],
    j: usize,
    n: usize,
    k: usize,
    outer: [Range; LOOPS],
) -> i64
    requires { SideIn nest.now j n k outer }
    ensures { (result ≡ extreme_from side nest.now k j n (ranges_of k outer)) × (size result ≤ 34359738368) }
{
    let mut extreme = limit_extreme(side, nest, j + (n - 1), k, outer);
    for i in (0..n - 1).rev() {
        extreme = side.tighter(limit_extreme(side, nest, j + i, k, outer), extreme);
    }
    extreme
}

// Cut to ±32767.
fn clamp(x: i64) -> Whole
    requires { size x ≤ 34359738368 }
    ensures { (result.value ≡ Rattle.model.specs.Quick.cut x) × (size result.value ≤ 32767) }
{
    Whole {
        value: x.clamp(-32767, 32767),
    }
}

// The least or the greatest value of loop k, from the ranges of the loops outside.
fn loop_extreme(
    side: Side,
    nest: &[i16],
    counts: &[usize],
    k: usize,
    outer: [Range; LOOPS],
) -> Whole
    requires { LoopIn nest.now counts.now k outer }
    ensures { (result.value ≡ end_of side (range_of (ranges_of k outer) (loop_at nest.now counts.now k)))
        × (size result.value ≤ 32767) }
{
    let place = side.place(k);
    clamp(side_extreme(side, nest, place * 16, counts[place], k, outer))
}

// Whether one of n limits from limit j on has a coefficient of loop i.
fn has_coefficient(nest: &[i16], j: usize, n: usize, i: usize) -> bool
    requires { (length nest.now ≡ nest_room) × (j + n ≤ nest_limits) × (i < most_loops) }
    ensures { (result ≡ false → Free nest.now j n i) × (result ≡ true → Free nest.now j n i → ⊥) }
{
    for l in 0..n {
        if nest[(j + l) * 8 + 2 + i] != 0 {
            return true;
        }
    }
    false
}

// The least value of loop k. Most limits have coefficients of few loops, and it goes only into these: the range of another stays 0 to 0, since its
// coefficients are 0.
#[cycle(loop_values)]
pub fn least_value(nest: &[i16], counts: &[usize], k: usize) -> Whole
    requires { NestOk nest.now counts.now (suc k) }
    ensures { (result.value ≡ (range_at nest.now counts.now k).least) × (size result.value ≤ 32767) }
{
    let place = Side::Lower.place(k);
    let n = counts[place];
    let mut outer = [NO_RANGE; LOOPS];
    for i in 0..k {
        if has_coefficient(nest, place * 16, n, i) {
            let least = least_value(nest, counts, i);
            let greatest = greatest_value(nest, counts, i);
            outer[i] = Range {
                least: least.value,
                greatest: greatest.value,
            };
        }
    }
    loop_extreme(Side::Lower, nest, counts, k, outer)
}

// The greatest value of loop k.
#[cycle(loop_values)]
pub fn greatest_value(nest: &[i16], counts: &[usize], k: usize) -> Whole
    requires { NestOk nest.now counts.now (suc k) }
    ensures { (result.value ≡ (range_at nest.now counts.now k).greatest) × (size result.value ≤ 32767) }
{
    let place = Side::Upper.place(k);
    let n = counts[place];
    let mut outer = [NO_RANGE; LOOPS];
    for i in 0..k {
        if has_coefficient(nest, place * 16, n, i) {
            let least = least_value(nest, counts, i);
            let greatest = greatest_value(nest, counts, i);
            outer[i] = Range {
                least: least.value,
                greatest: greatest.value,
            };
        }
    }
    loop_extreme(Side::Upper, nest, counts, k, outer)
}

// The ranges of the first n loops.
pub fn ranges(nest: &[i16], counts: &[usize], n: usize) -> [Range; LOOPS]
    requires { NestOk nest.now counts.now n }
    ensures { RangesAre nest.now counts.now n result }
{
    let mut r = [NO_RANGE; LOOPS];
    for i in 0..n {
        let least = least_value(nest, counts, i);
        let greatest = greatest_value(nest, counts, i);
        r[i] = Range {
            least: least.value,
            greatest: greatest.value,
        };
    }
    r
}

// The same, each range from those of the loops before it: one pass over the loops.
pub fn ranges_in_turn(nest: &[i16], counts: &[usize], n: usize) -> [Range; LOOPS]
    requires { NestOk nest.now counts.now n }
    ensures { RangesAre nest.now counts.now n result }
{
    let mut r = [NO_RANGE; LOOPS];
    for i in 0..n {
        let least = loop_extreme(Side::Lower, nest, counts, i, r);
        let greatest = loop_extreme(Side::Upper, nest, counts, i, r);
        r[i] = Range {
            least: least.value,
            greatest: greatest.value,
        };
    }
    r
}
