// The numbers of vectors, and those of vectors that are = at some loops.
#![tactic(auto)]

ghost use Rattle.std.specs.Prelude.{◌≡◌, true, false, ◌+◌, ◌*◌, ◌-◌, ◌≤◌, ◌<◌, length};
ghost use Rattle.integers.specs.Sign.{sign as «sign_of»};
ghost use Rattle.model.specs.Directions.{signs, vector_count};
ghost use Rattle.model.specs.Grammar.{most_loops};
ghost use Rattle.dependence_vectors.specs.Numbers.{digit, number_after, number, SignsIn, Left};
ghost use Rattle.dependence_vectors.specs.Candidates.{code};
ghost use Rattle.dependence_vectors.specs.Candidates.{Candidate};
ghost use Rattle.dependence_vectors.specs.Candidates.{stride as «stride-of»};

use model::VECTORS;

// ---- vectors

// The digit of a source index and a sink index: 0 is <, 1 is = and 2 is >. Every comparison of two indices for a vector is this one.
pub fn sign(a: i64, b: i64) -> usize
    ensures { result ≡ digit («sign_of» a b) }
{
    (integers::sign_of(a, b) + 1) as usize
}

// The number that the first n signs of two points make, as base-three digits, the outermost most significant.
#[inline(always)]
fn first_signs(p: &[i64], q: &[i64], n: usize) -> usize
    requires { SignsIn p.now q.now × (n ≤ length p.now) }
    ensures { Left p.now q.now n result }
{
    let mut v = 0;
    for k in 0..n {
        v = v * 3 + sign(p[k], q[k]);
    }
    v
}

// All signs of two points as base-three digits. Up to four are read with no loop, so that the compiler can lift the choice out of a walk over
// points.
fn sign_digits(p: &[i64], q: &[i64]) -> usize
    requires { SignsIn p.now q.now }
    ensures { result ≡ number_after 0 (signs p.now q.now) }
{
    match p.len() {
        1 => first_signs(p, q, 1),
        2 => first_signs(p, q, 2),
        3 => first_signs(p, q, 3),
        4 => first_signs(p, q, 4),
        n => first_signs(p, q, n),
    }
}

// How far the numbers of vectors of so many loops are from one another: 3 for each missing loop.
#[tactic(auto, unfolding(crate::specs::Candidates::stride))]
pub fn stride(depth: usize) -> usize
    requires { depth ≤ most_loops }
    ensures { (result ≡ «stride-of» (6 - depth)) × (result ≤ vector_count) }
{
    match depth {
        0 => VECTORS,
        1 => 243,
        2 => 81,
        3 => 27,
        4 => 9,
        5 => 3,
        _ => 1,
    }
}

// The number of the vector of two points of at most six indices: missing loops are =. `step` is the stride of their depth.
pub fn vector(p: &[i64], q: &[i64], step: usize) -> usize
    requires { SignsIn p.now q.now × (step ≡ «stride-of» (6 - length p.now)) }
    ensures { result ≡ number (signs p.now q.now) }
{
    sign_digits(p, q) * step + (step - 1) / 2
}

// The number of the vector of the stored points x and y.
pub fn stored_vector(points: &[i64], depth: usize, step: usize, x: usize, y: usize) -> usize
    requires { (depth ≤ most_loops) × (step ≡ «stride-of» (6 - depth)) × (x * depth + depth ≤ length points.now)
        × (y * depth + depth ≤ length points.now) }
    ensures { (result ≡ code depth points.now x y) × (result < vector_count) }
{
    vector(
        &points[x * depth..x * depth + depth],
        &points[y * depth..y * depth + depth],
        step,
    )
}

// ---- vectors that are = at some loops

// Whether v is the number of a vector that has = at every loop that does not vary.
pub fn is_candidate(v: usize, varying: &[bool]) -> bool
    requires { length varying.now ≡ 6 }
    ensures { Candidate varying.now v result }
{
    let mut w = v;
    for k in (0..6).rev() {
        if !varying[k] && w % 3 != 1 {
            return false;
        }
        w /= 3;
    }
    true
}
