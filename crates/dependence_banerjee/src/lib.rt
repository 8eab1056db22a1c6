// Banerjee's inequalities with direction vectors: a vector is impossible for two accesses if, in one dimension or
// in the sum of all, 0 lies outside the least and the greatest difference of their subscripts at iterations that
// have the vector. With some loops left to their greatest common divisor: if no multiple of it lies there.
// Words, ranges and marks are flat, as crates nest_elements, nest_loop_ranges and dependence_vectors have them.
#![tactic(auto)]

ghost use Rattle.std.specs.Prelude.{◌≡◌, true, ◌≤◌, ◌<◌, neg_ℤ, ◌+ℤ◌, ◌-ℤ◌, ◌*ℤ◌};
ghost use Rattle.std.specs.Int.Signed.{le_z};
ghost use Rattle.integers.specs.Difference.{size};
ghost use Rattle.model.specs.Grammar.{most_loops};
ghost use Rattle.nest_loop_ranges.specs.Ranges.{range_as, NearRange, RangesIn};
ghost use Rattle.dependence_banerjee.specs.Sums.{coefficient_sum, SubscriptsIn, SumsIn};
ghost use Rattle.dependence_banerjee.specs.Spans.{SpanIn, TermDifferenceIn, Filled, Widened, Spans, TermIn, PairIn, RegionIn, Extent, Excluded};
ghost use Rattle.dependence_banerjee.specs.Spans.{NoMultiple, NoIterations, Impossible};
ghost use Rattle.dependence_banerjee.specs.Covers.{Covers, CoverIn, candidates as «candidates-of»};

use model::{LOOPS, VECTORS};
use nest_index_range::Whole;
use nest_loop_ranges::Range;

// ---- sums of coefficients

// Coefficient k of m subscripts from subscript i on, summed; 0 is the constant.
fn coefficient(words: &[i16], i: usize, m: usize, k: usize) -> Whole
    requires { SubscriptsIn words.now i m × (k ≤ most_loops) }
    ensures { (result.value ≡ coefficient_sum words.now i k m) × (size result.value ≤ 98301) }
{
    let mut sum = 0;
    for t in 0..m {
        sum += integers::word(words, (i + t) * 8 + k);
    }
    Whole { value: sum }
}

// ---- one loop

// The difference of two terms at the indices x and y.
fn term_difference(c: Whole, x: i64, d: Whole, y: i64) -> Whole
    requires { TermDifferenceIn c.value d.value x y }
    ensures { (result.value ≡ c.value *ℤ x -ℤ d.value *ℤ y) × (size result.value ≤ 6442254336) }
{
    Whole {
        value: c.value * x - d.value * y,
    }
}

// The range and one value more.
fn include_value(r: Range, z: Whole) -> Range
    requires { Filled r × (size z.value ≤ 6442254336) }
    ensures { Widened r z.value result }
{
    Range {
        least: r.least.min(z.value),
        greatest: r.greatest.max(z.value),
    }
}

// One value.
fn single_value(z: Whole) -> Range
    requires { size z.value ≤ 6442254336 }
    ensures { Filled result × (result.least ≡ z.value) × (result.greatest ≡ z.value) }
{
    Range {
        least: z.value,
        greatest: z.value,
    }
}

// What the difference of two terms can be where both indices are one.
fn equal_span(c: Whole, d: Whole, r: Range) -> Range
    requires { SpanIn c.value d.value r }
    ensures { Spans c.value d.value r 1 result }
{
    let t = single_value(term_difference(c, r.least, d, r.least));
    include_value(t, term_difference(c, r.greatest, d, r.greatest))
}

// What it can be where the source's index is the lesser.
fn less_span(c: Whole, d: Whole, r: Range) -> Range
    requires { SpanIn c.value d.value r }
    ensures { Spans c.value d.value r 0 result }
{
    let t = single_value(term_difference(c, r.least, d, r.least + 1));
    let s = include_value(t, term_difference(c, r.least, d, r.greatest));
    include_value(s, term_difference(c, r.greatest - 1, d, r.greatest))
}

// The number on the other side of 0.
fn negated(z: Whole) -> Whole
    requires { size z.value ≤ 98301 }
    ensures { result.value ≡ neg_ℤ z.value }
{
    Whole { value: -z.value }
}

// What it can be where the source's index is the greater: c x - d y is (-d) y - (-c) x.
fn greater_span(c: Whole, d: Whole, r: Range) -> Range
    requires { SpanIn c.value d.value r }
    ensures { Spans c.value d.value r 2 result }
{
    less_span(negated(d), negated(c), r)
}

// By the digit of a sign, as the number of a vector has it: 0 is <, 1 is = and 2 is >.
fn span(c: Whole, d: Whole, r: Range, s: usize) -> Range
    requires { SpanIn c.value d.value r × (s < 3) }
    ensures { Spans c.value d.value r s result }
{
    match s {
        0 => less_span(c, d, r),
        1 => equal_span(c, d, r),
        _ => greater_span(c, d, r),
    }
}

// What the terms of loop k - 1 can differ by, of two sums of m subscripts.
fn term(words: &[i16], i: usize, j: usize, m: usize, k: usize, r: Range, s: usize) -> Range
    requires { TermIn words.now i j m k r s }
    ensures { Spans (coefficient_sum words.now i k m) (coefficient_sum words.now j k m) r s result }
{
    let c = coefficient(words, i, m, k);
    let d = coefficient(words, j, m, k);
    span(c, d, r, s)
}

// ---- all loops

// The difference of the constants.
fn constant(words: &[i16], i: usize, j: usize, m: usize) -> Range
    requires { SumsIn words.now i j m }
    ensures { (result.least ≡ coefficient_sum words.now i 0 m -ℤ coefficient_sum words.now j 0 m) × (result.greatest ≡ result.least)
        × (size result.least ≤ 196602) }
{
    let c = coefficient(words, i, m, 0);
    let d = coefficient(words, j, m, 0);
    single_value(Whole {
        value: c.value - d.value,
    })
}

// Two ranges summed.
fn sum(r: Range, t: Range) -> Range
    requires { PairIn r t }
    ensures { (result.least ≡ r.least +ℤ t.least) × (result.greatest ≡ r.greatest +ℤ t.greatest) }
{
    Range {
        least: r.least + t.least,
        greatest: r.greatest + t.greatest,
    }
}

// The subscripts, the depth and the ranges stay parameters: in a struct they cost 7 % more instructions, since each dimension copied the ranges.
// What two sums of m subscripts can differ by, where the iterations have vector u: its digits, the innermost first.
fn difference_span(
    words: &[i16],
    i: usize,
    j: usize,
    m: usize,
    n: usize,
    ranges: [Range; LOOPS],
    u: usize,
) -> Range
    requires { RegionIn words.now i j m n ranges }
    ensures { Extent words.now i j m n ranges u result }
{
    let mut r = constant(words, i, j, m);
    let mut v = u;
    for k in (0..n).rev() {
        r = sum(r, term(words, i, j, m, k + 1, ranges[k], v % 3));
        v /= 3;
    }
    r
}

// Whether 0 is none of it.
fn span_excludes_zero(
    words: &[i16],
    i: usize,
    j: usize,
    m: usize,
    n: usize,
    ranges: [Range; LOOPS],
    u: usize,
) -> bool
    requires { RegionIn words.now i j m n ranges }
    ensures { result ≡ true → Excluded words.now i j m n ranges u }
{
    let t = difference_span(words, i, j, m, n, ranges, u);
    0 < t.least || t.greatest < 0
}

// Whether no multiple of g is in the range. Of 0 nothing is said.
fn has_no_multiple(r: Range, g: u64) -> bool
    requires { (g ≤ 32767) × (size r.least ≤ 68719476736) × (size r.greatest ≤ 68719476736) }
    ensures { result ≡ true → NoMultiple r g }
{
    if g == 0 {
        return false;
    }
    let d = g as i64;
    integers::floor_div(r.greatest, d) < integers::ceil_div(r.least, d)
}

// Whether the difference of two subscripts is never 0. The terms of the outer loops sum to a multiple of the greatest common divisor of their
// coefficients; the constants and the inner loops, added one by one, must leave room for one.
fn gcd_excludes_zero(
    words: &[i16],
    i: usize,
    j: usize,
    n: usize,
    ranges: [Range; LOOPS],
    u: usize,
) -> bool
    requires { RegionIn words.now i j 1 n ranges }
    ensures { result ≡ true → Excluded words.now i j 1 n ranges u }
{
    let mut r = constant(words, i, j, 1);
    let mut v = u;
    for k in (0..n).rev() {
        if has_no_multiple(r, nest_quick_test::common_divisor(words, i, j, k + 1)) {
            return true;
        }
        r = sum(r, term(words, i, j, 1, k + 1, ranges[k], v % 3));
        v /= 3;
    }
    false
}

// The same of one of d subscripts from i on and its partner from j on.
fn some_gcd_excludes_zero(
    words: &[i16],
    i: usize,
    j: usize,
    d: usize,
    n: usize,
    ranges: [Range; LOOPS],
    u: usize,
) -> bool
    requires { RegionIn words.now i j d n ranges }
    ensures { result ≡ true → Impossible words.now i j d n ranges u }
{
    for t in 0..d {
        if gcd_excludes_zero(words, i + t, j + t, n, ranges, u) {
            return true;
        }
    }
    false
}

// Whether the range has one value or none.
fn is_single(r: Range) -> bool
    requires { NearRange (range_as r) }
    ensures { result ≡ le_z r.greatest r.least }
{
    r.greatest <= r.least
}

// Whether no iterations have vector u: a sign other than = wants two values.
fn has_no_iterations(n: usize, ranges: [Range; LOOPS], u: usize) -> bool
    requires { RangesIn n ranges }
    ensures { result ≡ true → NoIterations n ranges u }
{
    let mut v = u;
    for k in (0..n).rev() {
        if v % 3 != 1 && is_single(ranges[k]) {
            return true;
        }
        v /= 3;
    }
    false
}

// Whether d subscripts from i on and d from j on cannot be equal in pairs at iterations with vector u: by one
// dimension, by the sum of all, or by a common divisor.
fn impossible(
    words: &[i16],
    i: usize,
    j: usize,
    d: usize,
    n: usize,
    ranges: [Range; LOOPS],
    u: usize,
) -> bool
    requires { RegionIn words.now i j d n ranges }
    ensures { result ≡ true → Impossible words.now i j d n ranges u }
{
    if has_no_iterations(n, ranges, u) {
        return true;
    }
    for t in 0..d {
        if span_excludes_zero(words, i + t, j + t, 1, n, ranges, u) {
            return true;
        }
    }
    if span_excludes_zero(words, i, j, d, n, ranges, u) {
        return true;
    }
    some_gcd_excludes_zero(words, i, j, d, n, ranges, u)
}

// ---- all vectors

// How many vectors of n loops come before that of = alone, and that one if `own`.
fn candidates(n: usize, own: bool) -> usize
    requires { n ≤ most_loops }
    ensures { result ≡ «candidates-of» n own }
{
    let before = (VECTORS / dependence_vectors::stride(n) - 1) / 2;
    if own { before + 1 } else { before }
}

// Whether every vector that accesses a and b can have by these tests is marked: those of an earlier
// source, and that of one iteration if `own`.
pub fn covers_vectors(
    words: &[i16],
    a: usize,
    b: usize,
    d: usize,
    n: usize,
    ranges: [Range; LOOPS],
    own: bool,
    base: usize,
    marks: &[bool],
) -> bool
    requires { CoverIn words.now a b d n ranges base marks.now }
    ensures { result ≡ true → Covers words.now a b d n ranges own base marks.now }
{
    let step = dependence_vectors::stride(n);
    let rest = (step - 1) / 2;
    let end = candidates(n, own);
    for u in 0..end {
        if !marks[base + u * step + rest] && !impossible(words, a * 3, b * 3, d, n, ranges, u) {
            return false;
        }
    }
    true
}
