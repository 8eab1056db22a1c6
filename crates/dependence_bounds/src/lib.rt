// The lines of a nest without its points. They are bounded from both sides: the lines of a part of the nest are among them, and Banerjee's
// inequalities allow no others than are marked. Where the two agree the lines are known; where they do not, nothing is said. The part is the nest's
// corner or its centre.
#![tactic(auto)]

ghost use Rattle.std.specs.Prelude.{◌≡◌, true, ◌<◌, length};
ghost use Rattle.nest_loop_ranges.specs.Values.{RangesAre};
ghost use Rattle.nest_flat.specs.FlatNests.{flat};
ghost use Rattle.dependence_marks.specs.Lines.{Markable, LinesAre};
ghost use Rattle.dependence_bounds.specs.Covered.{PairsIn, PairCovered, CoveredFrom, CoveredTo};
ghost use Rattle.dependence_bounds.specs.AccessPairs.{pairs_in};
ghost use Rattle.dependence_bounds.specs.KnownLines.{Recounted, FlatNestCovered, CoverIn, BoundIn, MarkIn, Marked};

use dependence_subspace::Part;
use model::{ACCESS_ROOM, ARRAY_ROOM, LOOPS, NEST_ROOM, SIDES};
use nest_flat::{FlatNest, Header};
use nest_loop_ranges::Range;

// ---- pairs of accesses

// The words of all accesses, the array of each, the arrays, the loops and their ranges; of each access its statement, of `body`, and whether it
// writes.
#[derive(Clone, Copy)]
struct AccessPairs<'a> {
    words: &'a [i16],
    accessed: &'a [usize],
    arrays: &'a [usize],
    depth: usize,
    ranges: [Range; LOOPS],
    statements: &'a [usize],
    writes: &'a [bool],
    body: usize,
}

// Whether every vector that access a, as the source, can have with access b is marked.
fn pair_covered(lent: &AccessPairs, a: usize, b: usize, marks: &[bool]) -> bool
    requires { PairsIn (pairs_in lent.now) marks.now × (a < length lent.now.accessed.now) × (b < length lent.now.accessed.now) }
    ensures { result ≡ true → PairCovered (pairs_in lent.now) marks.now a b }
{
    let Some(k) = dependence_search::kind(lent.writes[a], lent.writes[b]) else {
        return true;
    };
    if lent.accessed[a] != lent.accessed[b] {
        return true;
    }
    let s = lent.statements[a];
    let t = lent.statements[b];
    let first = dependence_search::block(lent.body, s, t, k);
    dependence_banerjee::covers_vectors(
        lent.words,
        a,
        b,
        lent.arrays[lent.accessed[a] * ARRAY_ROOM],
        lent.depth,
        lent.ranges,
        s < t,
        first,
        marks,
    )
}

// The same with every access as the sink.
fn source_covered(lent: &AccessPairs, a: usize, marks: &[bool]) -> bool
    requires { PairsIn (pairs_in lent.now) marks.now × (a < length lent.now.accessed.now) }
    ensures { result ≡ true → CoveredFrom (pairs_in lent.now) marks.now a (length lent.now.accessed.now) }
{
    for b in 0..lent.accessed.len() {
        if !pair_covered(lent, a, b, marks) {
            return false;
        }
    }
    true
}

// The same of every pair.
fn pairs_covered(lent: &AccessPairs, marks: &[bool]) -> bool
    requires { PairsIn (pairs_in lent.now) marks.now }
    ensures { result ≡ true → CoveredTo (pairs_in lent.now) marks.now (length lent.now.accessed.now) }
{
    for a in 0..lent.accessed.len() {
        if !source_covered(lent, a, marks) {
            return false;
        }
    }
    true
}

// The same of the accesses of a nest whose loops have these ranges.
fn flat_nest_covered(nest: &FlatNest, ranges: [Range; LOOPS], marks: &[bool]) -> bool
    requires { CoverIn (flat nest.now) ranges marks.now }
    ensures { result ≡ true → FlatNestCovered (flat nest.now) ranges marks.now }
{
    let uses = dependence_marks::uses_of(nest);
    let accessed = &nest.header.accessed;
    let extents = &nest.header.extents;
    let statements = uses.statements;
    let writes = uses.writes;
    let accesses = nest.header.accesses;
    let lent = AccessPairs {
        words: &nest.words[..accesses * ACCESS_ROOM],
        accessed: &accessed[..accesses],
        arrays: &extents[..nest.header.arrays * ARRAY_ROOM],
        depth: nest.header.depth,
        ranges,
        statements: &statements[..accesses],
        writes: &writes[..accesses],
        body: nest.header.statements,
    };
    pairs_covered(&lent, marks)
}

// ---- a part of the nest

// Marks the lines of a nest of few points, if it is one. No subscript leaves its extent, as none does in the whole nest.
fn mark_if_few(nest: &FlatNest, marks: &mut [bool]) -> bool
    requires { Markable (flat nest.now) marks.old }
    ensures { (result ≡ true → LinesAre (flat nest.now) marks.new)
        × (length marks.new ≡ length marks.old) }
{
    let Ok(count) = nest_admission::count_points(nest) else {
        return false;
    };
    if 128 < count {
        return false;
    }
    let mut points = [0i64; 768];
    let listed = nest_points::list_points(nest, &mut points);
    dependence_marks::mark_few(nest, &points, listed, marks);
    true
}

// Writes over one slice what another one of the same length holds. Not by `copy_from_slice`: the archive would need `memmove` from the C library.
fn copy_words(out: &mut [i16], from: &[i16])
    requires { length out.old ≡ length from.now }
    ensures { out.new ≡ from.now }
{
    for i in 0..from.len() {
        out[i] = from[i];
    }
}

fn with_counts(header: Header, counts: [usize; SIDES]) -> Header
    ensures { Recounted header counts result }
{
    Header { counts, ..header }
}

// Marks the lines of a part of the nest. Answers whether they are all lines of the nest.
fn mark_part(nest: &FlatNest, ranges: [Range; LOOPS], part: Part, marks: &mut [bool]) -> bool
    requires { BoundIn (flat nest.now) marks.old × RangesAre nest.now.limits.now (flat nest.now).counts (flat nest.now).depth ranges }
    ensures { (result ≡ true → LinesAre (flat nest.now) marks.new)
        × (length marks.new ≡ length marks.old) }
{
    let depth = nest.header.depth;
    let mut counts = nest.header.counts;
    let mut few = [0i16; NEST_ROOM];
    copy_words(&mut few, nest.limits);
    dependence_subspace::restrict_nest(&mut few, &mut counts, depth, ranges, part);
    let header = with_counts(*nest.header, counts);
    let narrow = FlatNest {
        header: &header,
        limits: &few,
        words: nest.words,
    };
    if !mark_if_few(&narrow, marks) {
        return false;
    }
    flat_nest_covered(nest, ranges, marks)
}

// The same of the corner, and where it does not settle it, of the centre: there A(i) meets A(n − 1 − i).
fn mark_admitted(nest: &FlatNest, marks: &mut [bool]) -> bool
    requires { BoundIn (flat nest.now) marks.old }
    ensures { (result ≡ true → LinesAre (flat nest.now) marks.new)
        × (length marks.new ≡ length marks.old) }
{
    let counts = &nest.header.counts;
    let ranges = nest_loop_ranges::ranges_in_turn(nest.limits, counts, nest.header.depth);
    if mark_part(nest, ranges, Part::Corner, marks) {
        return true;
    }
    dependence_marks::clear_marks(marks);
    mark_part(nest, ranges, Part::Centre, marks)
}

// Marks all lines of a nest that passes refusals 7 and 8, and says so: then refusal 9 is passed too. Or says nothing.
pub fn mark_lines(nest: &FlatNest, marks: &mut [bool]) -> bool
    requires { MarkIn (flat nest.now) marks.old }
    ensures { (result ≡ true → Marked (flat nest.now) marks.new)
        × (length marks.new ≡ length marks.old) }
{
    if !nest_bounding_box::stays_inside(nest) {
        return false;
    }
    mark_admitted(nest, marks)
}
