// Subscripts within their extents, and the elements of a store that the accesses name. Arrays and accesses are lent as flat slices
// (specs/Layout), points as rows.
#![tactic(auto)]

ghost use Rattle.std.specs.Prelude.{◌≡◌, position, eqb, ◌+◌, ◌*◌, ◌≤◌, ◌<◌, pos, nat_abs, ◌+ℤ◌, ◌*ℤ◌, length};
ghost use Rattle.lists.specs.Parts.{rows, put};
ghost use Rattle.integers.specs.Difference.{size};
ghost use Rattle.integers.specs.Affine.{Within};
ghost use Rattle.model.specs.Grammar.{elements, total, most_elements, most_extent};
ghost use Rattle.model.specs.Store.{base};
ghost use Rattle.model.specs.Entries.{transparent};
ghost use Rattle.nest_index_range.specs.Ranges.{Narrow};
ghost use Rattle.nest_flat.specs.Layout.{extents_at, arrays_of, ArrayIn};
ghost use Rattle.nest_flat.specs.FlatNests.{flat, nest_of, FlatNestIn};
ghost use Rattle.nest_elements.specs.Search.{off, violates_at, ViolationIn};
ghost use Rattle.nest_elements.specs.Forms.{words_at, folded, raised, form_of, value_at, FoldIn, FormIn, ValueIn, PlacedIn};
ghost use Rattle.nest_elements.specs.Places.{BaseIn, NumberIn, places_of};
ghost use Rattle.nest_elements.specs.Nests.{NestViolationIn, NestSearched, opaque_at, NestNumberIn, NumbersAre};

use model::{ACCESS_ROOM, ARRAY_ROOM, DIMENSIONS, ROW_ROOM};
use nest_flat::FlatNest;

// The value of a form at a point.
fn form_value(form: &[i64], point: &[i64]) -> i64
    requires { ValueIn form.now point.now }
    ensures { (result ≡ value_at form.now point.now) × Narrow result }
{
    integers::affine(form[0], &form[1..1 + point.len()], point)
}

// Whether it is not from 0 to extent − 1.
fn leaves_extent(form: &[i64], extent: usize, point: &[i64]) -> bool
    requires { ValueIn form.now point.now × (extent ≤ most_extent) }
    ensures { result ≡ off extent (value_at form.now point.now) }
{
    let x = form_value(form, point);
    x < 0 || extent as i64 <= x
}

// The words of subscript j of all as a form, which is made once and lent for every point.
fn subscript_form(words: &[i16], j: usize) -> [i64; ROW_ROOM]
    requires { (j * 8 + 8 ≤ length words.now) × Within 32767 words.now }
    ensures { result ≡ words_at words.now j }
{
    let at = j * ROW_ROOM;
    let mut r = [0i64; ROW_ROOM];
    for l in 0..ROW_ROOM {
        r[l] = integers::word(words, at + l);
    }
    r
}

// Whether some point's subscript j leaves its extent.
fn violates(
    words: &[i16],
    j: usize,
    extent: usize,
    points: &[i64],
    depth: usize,
    count: usize,
) -> bool
    requires { ViolationIn words.now j extent points.now depth count }
    ensures { result ≡ violates_at words.now depth j extent (rows depth count points.now) }
{
    let form = subscript_form(words, j);
    for i in 0..count {
        let at = i * depth;
        if leaves_extent(&form, extent, &points[at..at + depth]) {
            return true;
        }
    }
    false
}

// The number of elements of array i.
fn elements_of(arrays: &[usize], i: usize) -> usize
    requires { ArrayIn arrays.now i }
    ensures { result ≡ elements (extents_at arrays.now i) }
{
    let at = i * ARRAY_ROOM;
    let dimensions = arrays[at];
    let mut r = 1;
    for d in (0..dimensions).rev() {
        r *= arrays[at + 1 + d];
    }
    r
}

// Where array i begins in the store; the number of elements of all arrays, where i is their number.
pub fn base_of(arrays: &[usize], i: usize) -> usize
    requires { BaseIn arrays.now i }
    ensures { result ≡ base (arrays_of arrays.now) i }
{
    let mut r = 0;
    for j in 0..i {
        r += elements_of(arrays, j);
    }
    r
}

// One number of a form, with one dimension more.
fn number(x: i64, extent: usize, word: i64) -> i64
    requires { (size x ≤ 134246399) × (extent ≤ most_extent) × (size word ≤ 32767) }
    ensures { result ≡ x *ℤ pos extent +ℤ word }
{
    x * (extent as i64) + word
}

// A form with one dimension more: its extent, and subscript j of all.
fn add_dimension(form: [i64; ROW_ROOM], extent: usize, words: &[i16], j: usize) -> [i64; ROW_ROOM]
    requires { FoldIn form extent words.now j }
    ensures { result ≡ folded extent form (words_at words.now j) }
{
    let at = j * ROW_ROOM;
    let mut r = form;
    for (l, &x) in form.iter().enumerate() {
        r[l] = number(x, extent, integers::word(words, at + l));
    }
    r
}

// A form with b more.
fn add_base(mut form: [i64; ROW_ROOM], b: usize) -> [i64; ROW_ROOM]
    requires { Within 549873283071 form × (b ≤ most_elements) }
    ensures { result ≡ raised b form }
{
    form[0] += b as i64;
    form
}

// The place of access k as a form; its array begins at b.
fn form_of(
    words: &[i16],
    accessed: &[usize],
    arrays: &[usize],
    k: usize,
    b: usize,
) -> [i64; ROW_ROOM]
    requires { FormIn words.now accessed.now arrays.now k b }
    ensures { result ≡ form_of words.now accessed.now arrays.now k b }
{
    let at = accessed[k] * ARRAY_ROOM;
    let dimensions = arrays[at];
    let mut form = [0i64; ROW_ROOM];
    for d in 0..dimensions {
        // a result that is assigned to `form` at once gets no proof yet
        let deeper = add_dimension(form, arrays[at + 1 + d], words, k * DIMENSIONS + d);
        form = deeper;
    }
    add_base(form, b)
}

// The place in the store that a form has at a point.
fn place(form: &[i64], point: &[i64]) -> u16
    requires { PlacedIn form.now point.now }
    ensures { result ≡ nat_abs (value_at form.now point.now) }
{
    form_value(form, point) as u16
}

// Writes the place of access k at every point, behind those of the accesses before it.
fn number_access(
    words: &[i16],
    accessed: &[usize],
    arrays: &[usize],
    k: usize,
    points: &[i64],
    depth: usize,
    count: usize,
    out: &mut [u16],
)
    requires { NumberIn words.now accessed.now arrays.now points.now depth count (length out.old) × (k < length accessed.now) }
    ensures { out.new ≡ put out.old (k * count) (places_of words.now accessed.now
        arrays.now depth (rows depth count points.now) k) }
{
    let b = base_of(arrays, accessed[k]);
    let form = form_of(words, accessed, arrays, k, b);
    let first = k * count;
    // not `i * depth`: points are numbered half again as fast without the product
    let mut at = 0;
    for i in 0..count {
        out[first + i] = place(&form, &points[at..at + depth]);
        at += depth;
    }
}

// The number of the first statement that has a subscript which leaves its extent at some point, from 1.
pub fn find_violation(nest: &FlatNest, points: &[i64], count: usize) -> Option<usize>
    requires { NestViolationIn (flat nest.now) points.now count }
    ensures { NestSearched (flat nest.now) result }
{
    let depth = nest.header.depth;
    let accesses = nest.header.accesses;
    let words = &nest.words[..accesses * ACCESS_ROOM];
    let accessed = &nest.header.accessed[..accesses];
    let extents = &nest.header.extents[..nest.header.arrays * ARRAY_ROOM];
    let sizes = &nest.header.sizes[..nest.header.statements];
    let mut found = None;
    let mut first = 0;
    'search: for (statement, &size) in sizes.iter().enumerate() {
        for i in 0..size {
            let k = first + i;
            let at = accessed[k] * ARRAY_ROOM;
            let dimensions = extents[at];
            for d in 0..dimensions {
                let extent = extents[at + 1 + d];
                if violates(words, k * DIMENSIONS + d, extent, points, depth, count) {
                    found = Some(statement + 1);
                    break 'search;
                }
            }
        }
        first += size;
    }
    found
}

// The number of elements of all arrays.
pub fn elements_in(nest: &FlatNest) -> usize
    requires { FlatNestIn (flat nest.now) }
    ensures { result ≡ total (nest_of (flat nest.now)).arrays }
{
    let extents = &nest.header.extents;
    let arrays = nest.header.arrays;
    base_of(&extents[..arrays * ARRAY_ROOM], arrays)
}

// The place of the first 0.
fn first_zero(numbers: &[usize]) -> Option<usize>
    ensures { result ≡ position (λ n. eqb n 0) numbers.now }
{
    numbers.iter().position(|n| *n == 0)
}

// The number of the first statement with rule 0, from 1.
pub fn first_opaque(nest: &FlatNest) -> Option<usize>
    requires { FlatNestIn (flat nest.now) }
    ensures { opaque_at result ≡ transparent 1 (nest_of (flat nest.now)).statements }
{
    let rules = &nest.header.rules;
    let statement = first_zero(&rules[..nest.header.statements])?;
    Some(statement + 1)
}

// The place in the store of every access at every point that is lent, those of one access after those of another.
pub fn number_accesses(nest: &FlatNest, points: &[i64], count: usize, numbers: &mut [u16])
    requires { NestNumberIn (flat nest.now) points.now count (length numbers.old) }
    ensures { NumbersAre (flat nest.now) points.now count numbers.new }
{
    let depth = nest.header.depth;
    let accesses = nest.header.accesses;
    let words = &nest.words[..accesses * ACCESS_ROOM];
    let accessed = &nest.header.accessed[..accesses];
    let extents = &nest.header.extents[..nest.header.arrays * ARRAY_ROOM];
    for k in 0..accessed.len() {
        number_access(words, accessed, extents, k, points, depth, count, numbers);
    }
}
