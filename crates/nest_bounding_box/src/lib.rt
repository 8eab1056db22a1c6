// Two refusals ruled out by the ranges of the loops alone, without a walk over the points: 9, where every subscript stays within its extent
// over the ranges, and 13, where the box of the ranges is small enough at every depth. Where an answer is false, the points decide.
#![tactic(auto)]

ghost use Rattle.std.specs.Prelude.{◌≡◌, true, ◌*◌, ◌≤◌, ◌<◌, length, get_or};
ghost use Rattle.model.specs.Grammar.{array_room};
ghost use Rattle.nest_flat.specs.Layout.{form_at};
ghost use Rattle.nest_loop_ranges.specs.Ranges.{range_as, ranges_of, NearRange, RangesIn};
ghost use Rattle.nest_flat.specs.FlatNests.{flat, FlatNestIn};
ghost use Rattle.nest_bounding_box.specs.Subscripts.{Enclosed, FirstEnclosed, AllEnclosed, SubscriptIn, AccessesIn};
ghost use Rattle.nest_bounding_box.specs.Boxes.{Unclamped, Compact};
ghost use Rattle.nest_bounding_box.specs.Promises.{StaysInside, StaysCompact};

use model::{ACCESS_ROOM, ARRAY_ROOM, DIMENSIONS, LOOPS, ROW_ROOM};
use nest_flat::FlatNest;
use nest_index_range::Ends;
use nest_loop_ranges::Range;

// Whether subscript j of all stays within its extent over the ranges of n loops.
fn subscript_fits(words: &[i16], j: usize, n: usize, extent: usize, ranges: [Range; LOOPS]) -> bool
    requires { SubscriptIn words.now j n extent ranges }
    ensures { result ≡ true → Enclosed (ranges_of n ranges) extent (form_at words.now n j) }
{
    let constant = integers::word(words, j * ROW_ROOM);
    let least = nest_loop_ranges::least_sum(words, j * ROW_ROOM + 1, n, ranges);
    if constant + least.value < 0 {
        return false;
    }
    let greatest = nest_loop_ranges::greatest_sum(words, j * ROW_ROOM + 1, n, ranges);
    constant + greatest.value < extent as i64
}

// Whether every subscript of access k does.
fn access_fits(
    words: &[i16],
    accessed: &[usize],
    arrays: &[usize],
    k: usize,
    n: usize,
    ranges: [Range; LOOPS],
) -> bool
    requires { AccessesIn words.now accessed.now arrays.now n ranges × (k < length accessed.now) }
    ensures { result ≡ true → FirstEnclosed (ranges_of n ranges) words.now accessed.now arrays.now n k
        (get_or arrays.now (get_or accessed.now k 0 * array_room) 0) }
{
    let at = accessed[k] * ARRAY_ROOM;
    let dimensions = arrays[at];
    for d in 0..dimensions {
        if !subscript_fits(words, k * DIMENSIONS + d, n, arrays[at + 1 + d], ranges) {
            return false;
        }
    }
    true
}

// Whether every subscript of every access does.
fn all_fit(
    words: &[i16],
    accessed: &[usize],
    arrays: &[usize],
    n: usize,
    ranges: [Range; LOOPS],
) -> bool
    requires { AccessesIn words.now accessed.now arrays.now n ranges }
    ensures { result ≡ true → AllEnclosed (ranges_of n ranges) words.now accessed.now arrays.now n
        (length accessed.now) }
{
    for k in 0..accessed.len() {
        if !access_fits(words, accessed, arrays, k, n, ranges) {
            return false;
        }
    }
    true
}

// Whether the ranges show that no subscript leaves its extent.
pub fn stays_inside(nest: &FlatNest) -> bool
    requires { FlatNestIn (flat nest.now) }
    ensures { StaysInside (flat nest.now) result }
{
    let counts = &nest.header.counts;
    let accessed = &nest.header.accessed;
    let extents = &nest.header.extents;
    let depth = nest.header.depth;
    let accesses = nest.header.accesses;
    let ranges = nest_loop_ranges::ranges_in_turn(nest.limits, counts, depth);
    all_fit(
        &nest.words[..accesses * ACCESS_ROOM],
        &accessed[..accesses],
        &extents[..nest.header.arrays * ARRAY_ROOM],
        depth,
        ranges,
    )
}

// Whether neither end of a range was cut.
fn is_unclamped(r: Range) -> bool
    requires { NearRange (range_as r) }
    ensures { result ≡ true → Unclamped (range_as r) }
{
    -32767 < r.least && r.greatest < 32767
}

// The number of indices in a range.
fn width(r: Range) -> usize
    requires { NearRange (range_as r) }
    ensures { (result ≡ Rattle.nest_bounding_box.specs.Boxes.width (range_as r)) × (result ≤ 68719476737) }
{
    nest_index_range::index_count(Ends {
        lo: r.least,
        hi: r.greatest,
    })
}

// Whether the box of the first n ranges is uncut, with 65,536 points at most at every depth.
fn is_compact(ranges: [Range; LOOPS], n: usize) -> bool
    requires { RangesIn n ranges }
    ensures { result ≡ true → Compact (ranges_of n ranges) }
{
    let mut volume = 1;
    for &range in &ranges[..n] {
        if !is_unclamped(range) {
            return false;
        }
        volume *= width(range);
        if 65536 < volume {
            return false;
        }
    }
    true
}

// Whether the ranges show that the nest passes refusal 13.
pub fn stays_compact(nest: &FlatNest) -> bool
    requires { FlatNestIn (flat nest.now) }
    ensures { StaysCompact (flat nest.now) result }
{
    let counts = &nest.header.counts;
    let depth = nest.header.depth;
    let ranges = nest_loop_ranges::ranges_in_turn(nest.limits, counts, depth);
    is_compact(ranges, depth)
}
