// The set of direction vectors of a nest, by value through each step. Loops are counted from 0.
#![tactic(auto)]

ghost use Rattle.std.specs.Prelude.{◌≡◌, true, false, ◌||◌, [], ◌≤◌, length, replicate};
ghost use Rattle.model.specs.Steps.{some_points_back};
ghost use Rattle.model.specs.Directions.{vector_count};
ghost use Rattle.model.specs.Grammar.{most_loops};
ghost use Rattle.step_kinds.specs.Kinds.{step_of};
ghost use Rattle.step_directions.specs.Sets.{vectors_of, DirectionIn, After, Empty, MarksIn, Cleared, Merged};
ghost use Rattle.step_directions.specs.Preimages.{ComesIn, Comes};

use model::VECTORS;
use step_kinds::Step;

// 729 marks, one for each vector of six signs by its number, and the loops that there are. A loop that is missing has the sign =.
#[derive(Clone, Copy)]
pub struct DirectionSet {
    pub marks: [bool; VECTORS],
    pub depth: usize,
}

// ---- how a set is made

fn no_marks() -> [bool; VECTORS]
    ensures { result ≡ replicate vector_count false }
{
    [false; VECTORS]
}

pub fn empty(depth: usize) -> DirectionSet
    ensures { Empty depth result }
{
    DirectionSet {
        marks: no_marks(),
        depth,
    }
}

// While a set is made its marks are lent. Only numbers of vectors of the depth are visited.

// Leaves no vector marked.
pub fn clear_vectors(marks: &mut [bool], depth: usize)
    requires { MarksIn marks.old depth }
    ensures { Cleared depth marks.new }
{
    let stride = dependence_vectors::stride(depth);
    for n in ((stride - 1) / 2..VECTORS).step_by(stride) {
        marks[n] = false;
    }
}

// Marks the vectors of 729 other marks too.
pub fn merge(marks: &mut [bool], row: &[bool], depth: usize)
    requires { MarksIn marks.old depth × (length row.now ≡ vector_count) }
    ensures { Merged row.now depth marks.old marks.new }
{
    let stride = dependence_vectors::stride(depth);
    for n in ((stride - 1) / 2..VECTORS).step_by(stride) {
        marks[n] = marks[n] | row[n];
    }
}

// ---- the set after a step

// Whether the vector with number n comes from a marked one. Of a skew's factor the sign alone matters, of a section's width nothing.
fn has_preimage(old: &[bool; VECTORS], n: usize, step: Step) -> bool
    requires { ComesIn (step_of step) n }
    ensures { Comes old.now (step_of step) n result }
{
    match step {
        Step::Exchange(e) => old[step_preimages::exchange_source(n, e.outer)],
        Step::Reversal(e) => old[step_preimages::reversal_source(n, e.target)],
        Step::Skew(e) => {
            let b = e.outer + 1 + e.distance;
            step_preimages::skew_source(old, n, e.outer, b, 0 < e.factor)
        }
        Step::Section(e) => old[step_preimages::section_source(n, e.target)],
        Step::Circulation(e) => old[step_preimages::circulation_source(n, e.from, e.to)],
    }
}

// Each mark is pulled from where it comes from. Only numbers of vectors of the new depth are visited.
pub fn set_after(s: DirectionSet, step: Step) -> DirectionSet
    requires { DirectionIn s step }
    ensures { After (step_of step) s result }
{
    let old = s.marks;
    let mut marks = no_marks();
    let depth = step_kinds::depth_after(step, s.depth);
    let stride = dependence_vectors::stride(depth);
    for n in ((stride - 1) / 2..VECTORS).step_by(stride) {
        marks[n] = has_preimage(&old, n, step);
    }
    DirectionSet { marks, depth }
}

// ---- tests

// Whether the set has no vector.
pub fn is_empty(s: DirectionSet) -> bool
    requires { s.depth ≤ most_loops }
    ensures { result ≡ true → vectors_of s ≡ [] }
{
    let marks = s.marks;
    let depth = s.depth;
    let stride = dependence_vectors::stride(depth);
    for n in ((stride - 1) / 2..VECTORS).step_by(stride) {
        if marks[n] {
            return false;
        }
    }
    true
}

// Whether a vector of the set points backwards. 364 is the number of the vector whose signs are all =, and those beyond it point backwards.
pub fn points_back(s: DirectionSet) -> bool
    requires { s.depth ≤ most_loops }
    ensures { result ≡ some_points_back (vectors_of s) }
{
    let marks = s.marks;
    let depth = s.depth;
    let stride = dependence_vectors::stride(depth);
    for n in (364 + stride..VECTORS).step_by(stride) {
        if marks[n] {
            return true;
        }
    }
    false
}
