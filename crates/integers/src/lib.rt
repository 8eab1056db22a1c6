// Exact integers: the arithmetic of limits and subscripts. The solver for proofs over them is in proofs/.
#![tactic(auto)]

ghost use Rattle.std.specs.Prelude.{◌≡◌, ◌+◌, ◌≤◌, ◌<◌, pos, ◌+ℤ◌, ◌*ℤ◌, ◌<ℤ◌, length, get_or};
ghost use Rattle.integers.specs.Difference.{size};
ghost use Rattle.integers.specs.Gcd.{gcd};
ghost use Rattle.integers.specs.Affine.{affine, AffineIn, AffineAt, SumTo, affine_at};
ghost use Rattle.integers.specs.Sign.{sign, sign_value};
ghost use Rattle.integers.specs.Division.{floor_div, ceil_div};

// a divided by b, rounded down: −3/4 is −1.
pub fn floor_div(a: i64, b: i64) -> i64
    requires { pos 0 <ℤ b }
    ensures { result ≡ floor_div a b }
{
    // most multipliers are 1, and a division takes long
    if b == 1 {
        return a;
    }
    let q = a / b;
    let r = a % b;
    if r < 0 { q - 1 } else { q }
}

// a divided by b, rounded up: −3/4 is 0.
pub fn ceil_div(a: i64, b: i64) -> i64
    requires { pos 0 <ℤ b }
    ensures { result ≡ ceil_div a b }
{
    if b == 1 {
        return a;
    }
    let q = a / b;
    let r = a % b;
    if r > 0 { q + 1 } else { q }
}

// The greatest common divisor; gcd(0, 0) is 0. Its loop counts nothing.
pub fn gcd(x: u64, y: u64) -> u64
    ensures { result ≡ Rattle.integers.specs.Gcd.gcd x y }
{
    let mut a = x;
    let mut b = y;
    while b != 0 {
        let t = a % b;
        a = b;
        b = t;
    }
    a
}

// The constant and the first n products.
#[inline(always)]
fn affine_first(constant: i64, coefficients: &[i64], indices: &[i64], n: usize) -> i64
    requires { AffineIn constant coefficients.now indices.now × (n ≤ length coefficients.now) }
    ensures { SumTo constant coefficients.now indices.now n result }
{
    let mut sum = constant;
    for i in 0..n {
        sum += coefficients[i] * indices[i];
    }
    sum
}

// The constant and the coefficients times the indices. Up to four of them are summed with no loop, so that the compiler can lift the choice
// out of a caller's loop over points.
pub fn affine(constant: i64, coefficients: &[i64], indices: &[i64]) -> i64
    requires { AffineIn constant coefficients.now indices.now }
    ensures { result ≡ Rattle.integers.specs.Affine.affine constant coefficients.now indices.now }
{
    match coefficients.len() {
        1 => affine_first(constant, coefficients, indices, 1),
        2 => affine_first(constant, coefficients, indices, 2),
        3 => affine_first(constant, coefficients, indices, 3),
        4 => affine_first(constant, coefficients, indices, 4),
        n => affine_first(constant, coefficients, indices, n),
    }
}

// One of the words in which limits and subscripts are kept, to reckon with.
pub fn word(words: &[i16], i: usize) -> i64
    requires { i < length words.now }
    ensures { result ≡ get_or words.now i (pos 0) }
{
    i64::from(words[i])
}

// The affine value whose constant is word `at`, and whose coefficients are the words after it.
pub fn affine_at(words: &[i16], at: usize, indices: &[i64]) -> i64
    requires { AffineAt words.now at indices.now }
    ensures { result ≡ affine_at words.now at indices.now }
{
    let mut sum = word(words, at);
    for (i, x) in indices.iter().enumerate() {
        sum += word(words, at + 1 + i) * *x;
    }
    sum
}

// −1, 0 or 1 as a is below, equal to or above b: a difference of two yes/no numbers, with no branch and, as `rust/tests/sign.rs` asks, with no call.
// a - b need not fit.
pub fn sign_of(a: i64, b: i64) -> i64
    ensures { result ≡ sign_value (sign a b) }
{
    (b < a) as i64 - (a < b) as i64
}
