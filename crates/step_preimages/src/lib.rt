// Which vector a step makes into the one with a number: the numbers of vectors before a step, digit by digit.
#![tactic(auto)]

ghost use Rattle.std.specs.Prelude.{◌≡◌, false, ℕ, ◌+◌, ◌-◌, ◌^◌, ◌≤◌, ◌<◌};
ghost use Rattle.integers.specs.Sign.{turned};
ghost use Rattle.lists.specs.Place.{«under», on_head, swapped, swap_all};
ghost use Rattle.model.specs.Directions.{vector_count};
ghost use Rattle.model.specs.Steps.{chain};
ghost use Rattle.dependence_vectors.specs.Numbers.{base3};
ghost use Rattle.step_preimages.specs.Numbers.{digits_of, Digits};
ghost use Rattle.step_preimages.specs.Weights.{ChangeIn};
ghost use Rattle.step_preimages.specs.Sources.{SourceIn, Source, joined, JoinedIn, may_be_digit, Signed, GaveIn, gave_digits, joined_digit};
ghost use Rattle.step_preimages.specs.Sources.{SkewSourceIn, SkewSource};

use model::VECTORS;

// ---- numbers

// The signs of the vector with number n, as digits: < is 0, = is 1, > is 2.
fn digits(n: usize) -> [usize; 6]
    requires { n < vector_count }
    ensures { result ≡ digits_of n }
{
    [n / 243, n / 81 % 3, n / 27 % 3, n / 9 % 3, n / 3 % 3, n % 3]
}

// The number of the vector with these digits.
fn number_of_digits(d: [usize; 6]) -> usize
    requires { Digits d }
    ensures { result ≡ base3 d }
{
    ((((d[0] * 3 + d[1]) * 3 + d[2]) * 3 + d[3]) * 3 + d[4]) * 3 + d[5]
}

// ---- exchange

// The number with the digits of weight 3 w and w exchanged. Called with a weight that is written out, so that no division is left.
fn exchange_digits(n: usize, w: usize) -> usize
    requires { ChangeIn n w 4 }
    ensures { (a : ℕ) → a ≤ 4 → w ≡ 3 ^ (4 - a) → Source («under» a swapped) (a + 2) n result }
{
    let x = n / (w * 3) % 3;
    let y = n / w % 3;
    n + (y * (w * 3) + x * w) - (x * (w * 3) + y * w)
}

// The number of the vector that the exchange of loops a and a + 1 turns into the one with number n.
pub fn exchange_source(n: usize, a: usize) -> usize
    requires { SourceIn n (a + 2) }
    ensures { Source («under» a swapped) (a + 2) n result }
{
    match a {
        0 => exchange_digits(n, 81),
        1 => exchange_digits(n, 27),
        2 => exchange_digits(n, 9),
        3 => exchange_digits(n, 3),
        _ => exchange_digits(n, 1),
    }
}

// ---- circulation

// The number of the vector that the circulation of loop a to place b turns into the one with number n: that of the way back, from b to a.
pub fn circulation_source(n: usize, a: usize, b: usize) -> usize
    requires { SourceIn n (a + (b - a) + 1) }
    ensures { Source (swap_all (chain b a)) (a + (b - a) + 1) n result }
{
    let count = step_kinds::chain_length(b, a);
    let mut m = n;
    for j in 0..count {
        let k = step_kinds::exchange_at(b, a, j);
        m = exchange_source(m, k);
    }
    m
}

// ---- reversal

// The number with the digit of weight w turned over.
fn reverse_digit(n: usize, w: usize) -> usize
    requires { ChangeIn n w 5 }
    ensures { (a : ℕ) → a ≤ 5 → w ≡ 3 ^ (5 - a) → Source («under» a (on_head turned)) (a + 1) n result }
{
    let x = n / w % 3;
    n + 2 * w - 2 * (x * w)
}

// The number of the vector that the reversal of loop a turns into the one with number n.
pub fn reversal_source(n: usize, a: usize) -> usize
    requires { SourceIn n (a + 1) }
    ensures { Source («under» a (on_head turned)) (a + 1) n result }
{
    match a {
        0 => reverse_digit(n, 243),
        1 => reverse_digit(n, 81),
        2 => reverse_digit(n, 27),
        3 => reverse_digit(n, 9),
        4 => reverse_digit(n, 3),
        _ => reverse_digit(n, 1),
    }
}

// ---- skew

// Whether the sum of the signs t and s may have the sign r: any sign, where one is < and the other >.
fn may_be(t: usize, s: usize, r: usize) -> bool
    ensures { result ≡ may_be_digit t s r }
{
    if t == 1 {
        return r == s;
    }
    if s == 1 {
        return r == t;
    }
    if s == t {
        return r == t;
    }
    true
}

// The sign x, or turned over.
fn apply_sign(x: usize, plus: bool) -> usize
    requires { x < 3 }
    ensures { Signed plus x result }
{
    if plus {
        return x;
    }
    2 - x
}

// Whether the vector with t at b was marked and may have d[b] there with s added.
fn skew_gives(old: &[bool; VECTORS], d: [usize; 6], b: usize, s: usize, t: usize) -> bool
    requires { GaveIn d b s t }
    ensures { result ≡ gave_digits old.now d b s t }
{
    if may_be(t, s, d[b]) {
        let mut e = d;
        e[b] = t;
        return old[number_of_digits(e)];
    }
    false
}

// Whether the skew of loop b by loop a turns some marked vector into the one with number n; `plus` by a factor above 0, else by one below.
pub fn skew_source(old: &[bool; VECTORS], n: usize, a: usize, b: usize, plus: bool) -> bool
    requires { SkewSourceIn a b n }
    ensures { SkewSource old.now a b plus n result }
{
    let d = digits(n);
    let s = apply_sign(d[a], plus);
    if skew_gives(old, d, b, s, 0) {
        return true;
    }
    if skew_gives(old, d, b, s, 1) {
        return true;
    }
    skew_gives(old, d, b, s, 2)
}

// ---- section

// The digit at place i before the section of loop a, from the digits after it: those of a and a + 1 come from one.
fn joined_digit(d: [usize; 6], a: usize, i: usize) -> usize
    requires { JoinedIn a i }
    ensures { result ≡ joined_digit d a i }
{
    if i < a {
        return d[i];
    }
    if a < i {
        return d[i + 1];
    }
    if d[a] == 1 {
        return d[a + 1];
    }
    d[a]
}

// The number of the vector that the section of loop a turns into the one with number n.
pub fn section_source(n: usize, a: usize) -> usize
    requires { SourceIn n (a + 2) }
    ensures { Source («under» a joined) (a + 2) n result }
{
    let d = digits(n);
    number_of_digits([
        joined_digit(d, a, 0),
        joined_digit(d, a, 1),
        joined_digit(d, a, 2),
        joined_digit(d, a, 3),
        joined_digit(d, a, 4),
        1,
    ])
}
