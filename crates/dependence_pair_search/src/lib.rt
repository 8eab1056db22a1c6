// The search of two accesses along chains of points with one element.
#![tactic(auto)]

ghost use Rattle.std.specs.Prelude.{◌≡◌, true, false, ◌+◌, ◌-◌, ◌≤◌, ◌<◌, length, get_or};
ghost use Rattle.model.specs.Directions.{vector_count};
ghost use Rattle.model.specs.Grammar.{most_elements};
ghost use Rattle.dependence_vectors.specs.Candidates.{stride};
ghost use Rattle.dependence_pair_search.specs.Search.{Below, Links, Unlinked, NextLinked, Clear, ClearElse, Linkable, Linked, Followable, up_to};
ghost use Rattle.dependence_pair_search.specs.Search.{Adds, walked, Walkable, Level, LevelElse, Tabled, Passed, found, Searchable};

use model::LOOPS;

// ---- chains of points by element

pub fn to_index(x: u16) -> usize
    ensures { result ≡ x }
{
    x as usize
}

pub fn to_link(x: usize) -> u16
    requires { x < 65536 }
    ensures { result ≡ x }
{
    x as u16
}

// Takes the heads of all elements that `from` has away.
fn clear_heads(from: &[u16], head: &mut [u16])
    requires { Below (length head.old) from.now × (length head.old ≤ most_elements) × ClearElse from.now head.old (length from.now) }
    ensures { Clear head.new }
{
    for y in (0..from.len()).rev() {
        head[to_index(from[y])] = 0;
    }
}

// For each y, one more than the last x before y (or up to y, if `own`) at which `from` has the element that `to` has at y, or 0.
// No element has a head before and after. Answers whether there is a link.
pub fn link(from: &[u16], to: &[u16], own: bool, head: &mut [u16], out: &mut [u16]) -> bool
    requires { Linkable from.now to.now head.old out.old }
    ensures { Links from.now to.now own out.new × Clear head.new
        × (result ≡ false → Unlinked (length from.now) out.new) }
{
    let mut any = false;
    for y in 0..from.len() {
        let e = to_index(to[y]);
        let mut l = head[e];
        head[to_index(from[y])] = to_link(y + 1);
        if own {
            l = head[e];
        }
        out[y] = l;
        any = any | (l != 0);
    }
    clear_heads(from, head);
    any
}

// Marks the vectors of the sink y with all sources of the chain that begins at `first`, and counts them. `step` is the stride of the depth.
fn mark_chain(
    points: &[i64],
    depth: usize,
    step: usize,
    y: usize,
    first: usize,
    next: &[u16],
    base: usize,
    marks: &mut [bool],
) -> usize
    requires { Walkable points.now depth y first next.now base marks.old × (step ≡ stride (6 - depth)) }
    ensures { (result ≤ first) × Adds marks.old marks.new
        (walked depth points.now next.now base y first) }
{
    let mut steps = 0;
    let mut l = first;
    // not a `for`: a chain is followed from link to link
    while l != 0 {
        let x = l - 1;
        marks[base + dependence_vectors::stored_vector(points, depth, step, x, y)] = true;
        l = to_index(next[x]);
        steps += 1;
    }
    steps
}

// ---- two accesses

fn vectors_end(own: bool) -> usize
    ensures { (result ≡ up_to own 364) × (result ≤ 365) }
{
    if own {
        return 365;
    }
    364
}

// Whether the index of loop k at some point differs from that at the point of its link.
fn index_changes(points: &[i64], depth: usize, count: usize, links: &[u16], k: usize) -> bool
    requires { (k < depth) × Tabled points.now depth count links.now }
    ensures { result ≡ false → Level depth points.now count links.now k }
{
    for x in 0..count {
        let l = to_index(links[x]);
        if l != 0 {
            if dependence_vectors::sign(points[(l - 1) * depth + k], points[x * depth + k]) != 1 {
                return true;
            }
        }
    }
    false
}

// The same for the links of the sources and of the sinks.
fn loop_varies(
    points: &[i64],
    depth: usize,
    count: usize,
    next: &[u16],
    start: &[u16],
    k: usize,
) -> bool
    requires { (k < depth) × Tabled points.now depth count next.now × Tabled points.now depth count start.now }
    ensures { result ≡ false → Level depth points.now count next.now k
        × Level depth points.now count start.now k }
{
    if index_changes(points, depth, count, next, k) {
        return true;
    }
    index_changes(points, depth, count, start, k)
}

// Which loops vary along chains.
fn find_varying(
    points: &[i64],
    depth: usize,
    count: usize,
    next: &[u16],
    start: &[u16],
    varying: &mut [bool],
)
    requires { Tabled points.now depth count next.now × Tabled points.now depth count start.now × (depth ≤ length varying.old) }
    ensures { LevelElse depth points.now count next.now start.now depth varying.new }
{
    for k in 0..depth {
        varying[k] = loop_varies(points, depth, count, next, start, k);
    }
}

// The first vector from v on, a step after another, that the search of two accesses can find and that is not marked, or where the vectors end: a
// place in either case, up to which all are marked, so an Option would be no plainer.
fn next_missing(
    marks: &[bool],
    base: usize,
    v: usize,
    end: usize,
    step: usize,
    varying: &[bool],
) -> usize
    requires { (base + end ≤ length marks.now) × (0 < step) × (step ≤ vector_count) × (length varying.now ≡ 6) }
    ensures { Passed varying.now base marks.now step v result
        × (result < end → get_or marks.now (base + result) false ≡ false) }
{
    let mut w = v;
    while w < end {
        if !marks[base + w] {
            if dependence_vectors::is_candidate(w, varying) {
                return w;
            }
        }
        w += step;
    }
    w
}

// The first sink from y on that has a source, or the end, which the loop below tests as its bound: an Option would be no plainer.
fn next_linked(start: &[u16], y: usize, end: usize) -> usize
    requires { (y ≤ end) × (end ≤ length start.now) }
    ensures { NextLinked start.now y end result }
{
    let mut i = y;
    while i < end {
        if start[i] != 0 {
            return i;
        }
        i += 1;
    }
    i
}

// Marks the vectors of all sinks with the sources on their chains. Left once there is nothing more to find. The look for what is missing begins when
// the walks have paid for finding out which loops vary, and goes on once what was missing is marked.
fn mark_chains(
    points: &[i64],
    depth: usize,
    from: &[u16],
    to: &[u16],
    own: bool,
    base: usize,
    next: &[u16],
    start: &[u16],
    marks: &mut [bool],
)
    requires { Searchable points.now depth from.now to.now base marks.old × Followable from.now to.now own next.now start.now }
    ensures { Adds marks.old marks.new (found depth points.now (length from.now)
        from.now to.now own base) }
{
    let step = dependence_vectors::stride(depth);
    let end = vectors_end(own);
    let mut varying = [false; LOOPS];
    let mut known = false;
    let mut v = (step - 1) / 2;
    let mut spent = 0;
    let mut y = next_linked(start, 0, from.len());
    // not a `for`: from each sink to the next that has a source
    while y < from.len() {
        spent = spent
            + mark_chain(
                points,
                depth,
                step,
                y,
                to_index(start[y]),
                next,
                base,
                marks,
            );
        y = next_linked(start, y + 1, from.len());
        if 64 < spent {
            let mut stale = marks[base + v];
            if !known {
                find_varying(points, depth, from.len(), next, start, &mut varying);
                known = true;
                stale = true;
            }
            if stale {
                v = next_missing(marks, base, v, end, step, &varying);
                if end <= v {
                    return;
                }
            }
        }
    }
}

// Marks the vectors of all conflicts of a source access, whose links are lent, and a sink access, from `base` on.
pub fn search(
    points: &[i64],
    depth: usize,
    from: &[u16],
    to: &[u16],
    own: bool,
    base: usize,
    next: &[u16],
    head: &mut [u16],
    start: &mut [u16],
    marks: &mut [bool],
)
    requires { Searchable points.now depth from.now to.now base marks.old × Linked from.now next.now head.old start.old
        × Below (length head.old) to.now }
    ensures { Adds marks.old marks.new (found depth points.now (length from.now)
        from.now to.now own base) × Clear head.new }
{
    if link(from, to, own, head, start) {
        mark_chains(points, depth, from, to, own, base, next, start, marks);
    }
}
