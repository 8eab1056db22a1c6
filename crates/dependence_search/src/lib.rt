// The search for dependences: from stored points and element numbers, the mark of every line that a listing has.
#![tactic(auto)]

ghost use Rattle.std.specs.Prelude.{◌≡◌, true, ℕ, ◌+◌, ◌≤◌, ◌<◌, ◌^◌, length, MatchOption};
ghost use Rattle.model.specs.Grammar.{most_points};
ghost use Rattle.model.specs.Directions.{kind_count, vector_count};
ghost use Rattle.dependence_vectors.specs.Numbers.{place_of, marks_for};
ghost use Rattle.dependence_pair_search.specs.Search.{Adds, Clear, Linked};
ghost use Rattle.dependence_search.specs.Flat.{Searched, kind_of, numbers_of, set_by, set_from, NumbersBelow, Lent, Alike};
ghost use Rattle.dependence_search.specs.Nests.{flat_of};

mod nests;

use model::{ELEMENTS, KINDS, POINTS, VECTORS};
pub use nests::NumberedNest;

// ---- accesses that are searched once

// Whether the accesses a and b belong to one statement and name the same elements in the same way.
fn alike(nest: &NumberedNest, a: usize, b: usize) -> bool
    requires { (a < length nest.now.statements.now) × (b < length nest.now.statements.now) }
    ensures { result ≡ true → Alike nest.now.count nest.now.numbers.now nest.now.statements.now nest.now.writes.now a b }
{
    if nest.statements[a] != nest.statements[b] {
        return false;
    }
    if nest.writes[a] != nest.writes[b] {
        return false;
    }
    nest.numbers_of(a) == nest.numbers_of(b)
}

// Whether an earlier access is like a.
fn repeats_earlier(nest: &NumberedNest, a: usize) -> bool
    requires { a < length nest.now.statements.now }
    ensures { result ≡ true → ((b : ℕ) × (b < a)
        × Alike nest.now.count nest.now.numbers.now nest.now.statements.now nest.now.writes.now b a) }
{
    for b in 0..a {
        if alike(nest, b, a) {
            return true;
        }
    }
    false
}

// ---- all accesses

// The kind of a source access and a sink access: 0 is flow, 1 is anti, 2 is output; two reads have none. A number, since marks stand by it.
pub fn kind(source: bool, sink: bool) -> Option<usize>
    ensures { MatchOption result (kind_of source sink ≡ kind_count) (λ k. (k ≡ kind_of source sink) × (k < kind_count)) }
{
    match (source, sink) {
        (true, false) => Some(0),
        (false, true) => Some(1),
        (true, true) => Some(2),
        (false, false) => None,
    }
}

// Where the marks of a source statement, a sink statement and a kind begin.
pub fn block(body: usize, s: usize, t: usize, k: usize) -> usize
    requires { (marks_for body < 2 ^ 64) × (s < body) × (t < body) × (k < kind_count) }
    ensures { (result ≡ place_of body s t k 0) × (result + vector_count ≤ marks_for body) }
{
    ((s * body + t) * KINDS + k) * VECTORS
}

// Marks the conflicts of access a, as the source, with access b. The links of a are lent.
fn mark_pair(
    nest: &NumberedNest,
    a: usize,
    b: usize,
    next: &[u16],
    head: &mut [u16],
    start: &mut [u16],
    marks: &mut [bool],
)
    requires { (marks_for nest.now.body ≤ length marks.old) × (a < length nest.now.statements.now) × (b < length nest.now.statements.now)
        × Linked (numbers_of nest.now.count nest.now.numbers.now a) next.now head.old start.old
        × NumbersBelow (length head.old) (flat_of nest.now) }
    ensures { Adds marks.old marks.new (set_by (flat_of nest.now) a b) × Clear head.new }
{
    if let Some(k) = kind(nest.writes[a], nest.writes[b]) {
        let s = nest.statements[a];
        let t = nest.statements[b];
        dependence_pair_search::search(
            nest.points,
            nest.depth,
            nest.numbers_of(a),
            nest.numbers_of(b),
            s < t,
            block(nest.body, s, t, k),
            next,
            head,
            start,
            marks,
        );
    }
}

// Marks the conflicts of access a, as the source, with every access. A sink that an earlier one is like sets no more.
fn mark_source(
    nest: &NumberedNest,
    a: usize,
    next: &mut [u16],
    head: &mut [u16],
    start: &mut [u16],
    marks: &mut [bool],
)
    requires { (marks_for nest.now.body ≤ length marks.old) × (a < length nest.now.statements.now)
        × Lent (flat_of nest.now) next.old head.old start.old }
    ensures { Adds marks.old marks.new (set_from (flat_of nest.now) a) × Clear head.new }
{
    let numbers = nest.numbers_of(a);
    dependence_pair_search::link(numbers, numbers, false, head, next);
    for b in 0..nest.statements.len() {
        if !repeats_earlier(nest, b) {
            mark_pair(nest, a, b, next, head, start, marks);
        }
    }
}

// Marks the conflicts of every access, as the source, with every access. A source that an earlier one is like sets no more.
fn mark_sources(
    nest: &NumberedNest,
    next: &mut [u16],
    head: &mut [u16],
    start: &mut [u16],
    marks: &mut [bool],
)
    requires { (marks_for nest.now.body ≤ length marks.old) × Lent (flat_of nest.now) next.old head.old start.old }
    ensures { Searched (flat_of nest.now) marks.old marks.new }
{
    for a in 0..nest.statements.len() {
        if !repeats_earlier(nest, a) {
            mark_source(nest, a, next, head, start, marks);
        }
    }
}

// Marks every line with room for the links of LINKS points and for the heads of HEADS elements. In a frame of its own, so that a small nest does not
// pass through the room of a large one.
#[inline(never)]
fn dependences_in_room<const LINKS: usize, const HEADS: usize>(
    nest: &NumberedNest,
    marks: &mut [bool],
)
    requires { (marks_for nest.now.body ≤ length marks.old) × (nest.now.count ≤ LINKS) × (LINKS ≤ most_points)
        × NumbersBelow HEADS (flat_of nest.now) }
    ensures { Searched (flat_of nest.now) marks.old marks.new }
{
    let mut next = [0u16; LINKS];
    let mut head = [0u16; HEADS];
    let mut start = [0u16; LINKS];
    mark_sources(nest, &mut next, &mut head, &mut start, marks);
}

// Marks every line that the listing of the nest has. All numbers are below `elements`; fewer points and elements have fewer links and heads to clear.
pub fn dependences(nest: &NumberedNest, elements: usize, marks: &mut [bool])
    requires { (marks_for nest.now.body ≤ length marks.old) × NumbersBelow elements (flat_of nest.now) }
    ensures { Searched (flat_of nest.now) marks.old marks.new }
{
    let count = nest.count;
    if count <= 32 && elements <= 128 {
        dependences_in_room::<32, 128>(nest, marks);
    } else if count <= 256 && elements <= 1024 {
        dependences_in_room::<256, 1024>(nest, marks);
    } else if count <= 256 && elements <= 8192 {
        dependences_in_room::<256, 8192>(nest, marks);
    } else {
        dependences_in_room::<POINTS, ELEMENTS>(nest, marks);
    }
}
