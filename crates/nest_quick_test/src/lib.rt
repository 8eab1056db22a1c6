// The quick test of two accesses: subscript by subscript the greatest common divisor and the range of the
// difference. A nest and its accesses are lent as flat slices (crate flat nest).
#![tactic(auto)]

ghost use Rattle.std.specs.Prelude.{◌≡◌, ◌||◌, ◌++◌, ◌+◌, ◌*◌, ◌≤◌, pos, ◌+ℤ◌, ◌-ℤ◌, take, drop};
ghost use Rattle.std.specs.Int.Signed.{lt_z};
ghost use Rattle.integers.specs.Difference.{size};
ghost use Rattle.integers.specs.Gcd.{gcd_of};
ghost use Rattle.lists.specs.Tests.{any};
ghost use Rattle.nest_flat.specs.Layout.{forms_from};
ghost use Rattle.nest_flat.specs.FlatNests.{flat, nest_of, access_of};
ghost use Rattle.nest_loop_ranges.specs.Ranges.{range_as, ranges_of, is_empty, NearRange, RangesIn};
ghost use Rattle.nest_quick_test.specs.Differences.{gcd_onto, difference_at, WordsIn, PairIn, DifferenceIn, extreme_difference};
ghost use Rattle.nest_quick_test.specs.Differences.{FormsIn};
ghost use Rattle.nest_quick_test.specs.Nests.{NestTestIn};
ghost use Rattle.model.specs.Quick.{never_zero, some_apart, is_apart};

use model::{ACCESS_ROOM, ARRAY_ROOM, LOOPS};
use nest_flat::FlatNest;
use nest_index_range::{Side, Whole};
use nest_loop_ranges::Range;

// Whether the least exceeds the greatest.
fn range_is_empty(r: Range) -> bool
    requires { NearRange (range_as r) }
    ensures { result ≡ is_empty (range_as r) }
{
    r.greatest < r.least
}

// Whether one of the first n ranges is empty.
fn some_empty(ranges: [Range; LOOPS], n: usize) -> bool
    requires { RangesIn n ranges }
    ensures { result ≡ any is_empty (ranges_of n ranges) }
{
    for i in 0..n {
        if range_is_empty(ranges[i]) {
            return true;
        }
    }
    false
}

// The greatest common divisor of n words from place at on and g, the last word first.
fn gcd_of_words(words: &[i16], at: usize, n: usize, g: u64) -> u64
    requires { WordsIn words.now at n }
    ensures { result ≡ gcd_onto (take n (drop at words.now)) g }
{
    let mut r = g;
    for i in (0..n).rev() {
        r = integers::gcd(integers::word(words, at + i).unsigned_abs(), r);
    }
    r
}

// Whether g divides c; 0 divides 0 alone.
fn divides(g: u64, c: i64) -> bool
    requires { size c ≤ 34359738368 }
    ensures { result ≡ Rattle.model.specs.Quick.divides g c }
{
    let m = c.unsigned_abs();
    if g == 0 { m == 0 } else { m % g == 0 }
}

// The greatest common divisor of all coefficients of subscripts u and v.
pub fn common_divisor(words: &[i16], u: usize, v: usize, n: usize) -> u64
    requires { PairIn words.now u v n }
    ensures { result ≡ gcd_of (difference_at words.now n u v).coefficients }
{
    let g = gcd_of_words(words, v * 8 + 1, n, 0);
    gcd_of_words(words, u * 8 + 1, n, g)
}

// The constant of subscript u less that of subscript v.
fn constant_difference(words: &[i16], u: usize, v: usize, n: usize) -> Whole
    requires { PairIn words.now u v n }
    ensures { (result.value ≡ (difference_at words.now n u v).constant) × (size result.value ≤ 65534) }
{
    let one = integers::word(words, u * 8);
    let other = integers::word(words, v * 8);
    Whole { value: one - other }
}

// The constant and the difference of the two sums.
fn plus_difference(c: Whole, e: Whole, f: Whole) -> Whole
    requires { (size c.value ≤ 65534) × (size e.value ≤ 6442057734) × (size f.value ≤ 6442057734) }
    ensures { (result.value ≡ c.value +ℤ (e.value -ℤ f.value)) × (size result.value ≤ 34359738368) }
{
    Whole {
        value: c.value + (e.value - f.value),
    }
}

// The least that subscript u less subscript v can be, over two free iterations, as lower limits ask; or the greatest, as upper ones do.
fn extreme_difference(
    side: Side,
    words: &[i16],
    u: usize,
    v: usize,
    n: usize,
    ranges: [Range; LOOPS],
) -> Whole
    requires { DifferenceIn words.now u v n ranges }
    ensures { (result.value ≡ extreme_difference side words.now u v n (ranges_of n ranges)) × (size result.value ≤ 34359738368) }
{
    let c = constant_difference(words, u, v, n);
    let e = nest_loop_ranges::extreme_sum(side, words, u * 8 + 1, n, ranges);
    let f = nest_loop_ranges::extreme_sum(side.other(), words, v * 8 + 1, n, ranges);
    plus_difference(c, e, f)
}

// Whether 0 lies outside the two.
fn excludes_zero(least: Whole, greatest: Whole) -> bool
    requires { (size least.value ≤ 34359738368) × (size greatest.value ≤ 34359738368) }
    ensures { result ≡ (lt_z (pos 0) least.value || lt_z greatest.value (pos 0)) }
{
    0 < least.value || greatest.value < 0
}

// Whether subscript u less subscript v is never 0, over two free iterations.
fn never_zero(words: &[i16], u: usize, v: usize, n: usize, ranges: [Range; LOOPS]) -> bool
    requires { DifferenceIn words.now u v n ranges }
    ensures { result ≡ never_zero (ranges_of n ranges ++ ranges_of n ranges) (difference_at words.now n u v) }
{
    let g = common_divisor(words, u, v, n);
    let c = constant_difference(words, u, v, n);
    if !divides(g, c.value) {
        return true;
    }
    let least = extreme_difference(Side::Lower, words, u, v, n, ranges);
    let greatest = extreme_difference(Side::Upper, words, u, v, n, ranges);
    excludes_zero(least, greatest)
}

// Whether one of d subscripts from subscript u on never equals its partner from subscript v on.
fn some_apart(words: &[i16], u: usize, v: usize, d: usize, n: usize, ranges: [Range; LOOPS]) -> bool
    requires { FormsIn words.now u v d n ranges }
    ensures { result ≡ some_apart (ranges_of n ranges) (forms_from words.now n u d) (forms_from words.now n v d) }
{
    for i in 0..d {
        if never_zero(words, u + i, v + i, n, ranges) {
            return true;
        }
    }
    false
}

// Whether two accesses, counted from 0, never meet by the quick test: 'apart', or else 'perhaps'.
pub fn is_apart(nest: &FlatNest, first: usize, second: usize) -> bool
    requires { NestTestIn (flat nest.now) first second }
    ensures { result ≡ is_apart (nest_of (flat nest.now)).loops
        (access_of (nest_of (flat nest.now)) first)
        (access_of (nest_of (flat nest.now)) second) }
{
    let accessed = &nest.header.accessed;
    let array = accessed[first];
    if array != accessed[second] {
        return true;
    }
    let counts = &nest.header.counts;
    let depth = nest.header.depth;
    let r = nest_loop_ranges::ranges(nest.limits, counts, depth);
    if some_empty(r, depth) {
        return true;
    }
    let extents = &nest.header.extents;
    let d = extents[array * ARRAY_ROOM];
    let used = nest.header.accesses * ACCESS_ROOM;
    some_apart(&nest.words[..used], first * 3, second * 3, d, depth, r)
}
