// Limits on the flat words of a nest, and what a step makes of rows of coefficients and of limits. n is the number of loops outside.
#![tactic(auto)]

ghost use Rattle.std.specs.Prelude.{◌≡◌, ◌+◌, ◌*◌, ◌<◌, ◌≤◌, pos, neg_ℤ, ◌+ℤ◌, ◌*ℤ◌, take, is_ok};
ghost use Rattle.integers.specs.Affine.{Within};
ghost use Rattle.integers.specs.Difference.{size};
ghost use Rattle.lists.specs.Place.{under, on_head, swapped};
ghost use Rattle.model.specs.Encode.{limit_words};
ghost use Rattle.model.specs.Judge.{small_limit};
ghost use Rattle.model.specs.Limits.{negated, skew_coefficients, element_limit, split_coefficients, skew_limit, section_lower, section_upper};
ghost use Rattle.model.specs.Grammar.{most_loops};
ghost use Rattle.ticket_loops.specs.LoopReads.{limit_of};
ghost use Rattle.nest_rows.specs.Rows.{RowIs, Tried};
ghost use Rattle.step_limits.specs.Small.{SmallLimit};
ghost use Rattle.step_limits.specs.Makes.{mixed, LimitIs};
ghost use Rattle.step_limits.specs.Words.{LimitThere, LimitRoom};
ghost use Rattle.step_limits.specs.Change.{change_of, outer_after, Allowed};
ghost use Rattle.nest_flat.specs.Flat.{limit_at};

use model::LOOPS;
use nest_rows::NumberOutOfRange;
use ticket_loops::Limit;

// ---- numbers

// u x + v y
pub fn combine(u: i32, x: i32, v: i32, y: i32) -> i32
    requires { (size u ≤ 32767) × (size x ≤ 32767) × (size v ≤ 32767) × (size y ≤ 32767) }
    ensures { result ≡ u *ℤ x +ℤ v *ℤ y }
{
    u * x + v * y
}

pub fn negate(x: i32) -> i32
    requires { size x ≤ 32767 }
    ensures { result ≡ neg_ℤ x }
{
    -x
}

// x + c y
fn add_multiple(x: i32, c: i32, y: i32) -> i32
    requires { (size x ≤ 32767) × (size c ≤ 32767) × (size y ≤ 32767) }
    ensures { result ≡ x +ℤ (c *ℤ y) }
{
    x + c * y
}

fn times(x: i32, w: u32) -> i32
    requires { (size x ≤ 32767) × (w ≤ 32767) }
    ensures { result ≡ x *ℤ pos w }
{
    x * (w as i32)
}

// ---- rows

// u xs + v ys
pub fn combine_rows(n: usize, u: i32, xs: [i32; LOOPS], v: i32, ys: [i32; LOOPS]) -> [i32; LOOPS]
    requires { (n ≤ most_loops) × (size u ≤ 32767) × (size v ≤ 32767) × Within 32767 (take n xs) × Within 32767 (take n ys) }
    ensures { RowIs n result (mixed u v (take n xs) (take n ys)) }
{
    let mut r = [0i32; LOOPS];
    for k in 0..n {
        r[k] = combine(u, xs[k], v, ys[k]);
    }
    r
}

// The coefficient at place a changes sign.
pub fn reverse_row(cs: [i32; LOOPS], n: usize, a: usize) -> [i32; LOOPS]
    requires { (a < n) × (n ≤ most_loops) × Within 32767 (take n cs) }
    ensures { RowIs n result (under a (on_head neg_ℤ) (take n cs)) }
{
    let mut r = cs;
    r[a] = negate(cs[a]);
    r
}

// The loop d + 1 places inside loop a is skewed: what its coefficient takes from that of a.
pub fn skew_row(cs: [i32; LOOPS], n: usize, a: usize, d: usize, factor: i32) -> [i32; LOOPS]
    requires { (a + 1 + d < n) × (n ≤ most_loops) × (size factor ≤ 32767) × Within 32767 (take n cs) }
    ensures { RowIs n result (under a (skew_coefficients d factor) (take n cs)) }
{
    let mut r = cs;
    r[a] = add_multiple(cs[a], negate(factor), cs[a + 1 + d]);
    r
}

// Coefficient a becomes w times itself, and itself.
pub fn section_row(cs: [i32; LOOPS], n: usize, a: usize, w: u32) -> [i32; LOOPS]
    requires { (a < n) × (n < most_loops) × (w ≤ 32767) × Within 32767 (take n cs) }
    ensures { RowIs (n + 1) result (under a (split_coefficients w) (take n cs)) }
{
    let mut r = nest_rows::double_place(cs, n, a);
    r[a] = times(cs[a], w);
    r
}

// ---- limits

fn reverse_limit(l: Limit, n: usize) -> Limit
    requires { (n ≤ most_loops) × SmallLimit (limit_of n l) }
    ensures { LimitIs n result (negated (limit_of n l)) }
{
    Limit {
        constant: negate(l.constant),
        coefficients: combine_rows(n, -1, l.coefficients, 0, l.coefficients),
        ..l
    }
}

// The skewed loop's own limits.
fn skew_limit(l: Limit, n: usize, a: usize, factor: i32) -> Limit
    requires { (a < n) × (n ≤ most_loops) × (size factor ≤ 32767) × SmallLimit (limit_of n l) }
    ensures { LimitIs n result (skew_limit a factor (limit_of n l)) }
{
    let mut cs = l.coefficients;
    cs[a] = add_multiple(cs[a], factor, l.multiplier as i32);
    Limit {
        coefficients: cs,
        ..l
    }
}

// p w S ≥ e − p (w − 1)
fn section_lower(l: Limit, n: usize, w: u32) -> Limit
    requires { (1 ≤ w) × (w ≤ 256) × SmallLimit (limit_of n l) }
    ensures { LimitIs n result (section_lower w (limit_of n l)) }
{
    Limit {
        multiplier: l.multiplier * w,
        constant: l.constant - ((l.multiplier * (w - 1)) as i32),
        ..l
    }
}

// p w S ≤ e
fn section_upper(l: Limit, n: usize, w: u32) -> Limit
    requires { (w ≤ 256) × SmallLimit (limit_of n l) }
    ensures { LimitIs n result (section_upper w (limit_of n l)) }
{
    Limit {
        multiplier: l.multiplier * w,
        ..l
    }
}

// w S moved across
fn section_element(l: Limit, n: usize, w: u32) -> Limit
    requires { (n < most_loops) × (w ≤ 256) × SmallLimit (limit_of n l) }
    ensures { LimitIs (n + 1) result (element_limit w (limit_of n l)) }
{
    let mut cs = l.coefficients;
    cs[n] = -((l.multiplier * w) as i32);
    Limit {
        coefficients: cs,
        ..l
    }
}

fn with_row(l: Limit, cs: [i32; LOOPS]) -> Limit
    ensures { result ≡ record { multiplier = l.multiplier; constant = l.constant; coefficients = cs } }
{
    Limit {
        coefficients: cs,
        ..l
    }
}

// ---- a limit among the words of a nest

// Limit j of all, of a loop with n loops outside.
pub fn limit_at(words: &[i16], j: usize, n: usize) -> Limit
    requires { LimitThere words.now j n }
    ensures { LimitIs n result (limit_at words.now n j) }
{
    let at = j * 8;
    Limit {
        multiplier: nest_rows::word_at(words, at) as u32,
        constant: nest_rows::word_at(words, at + 1),
        coefficients: nest_rows::row_at(words, at + 2),
    }
}

fn is_small(l: Limit, n: usize) -> bool
    requires { n ≤ most_loops }
    ensures { result ≡ small_limit (limit_of n l) }
{
    if 32767 < l.multiplier {
        return false;
    }
    if !nest_rows::small_number(l.constant) {
        return false;
    }
    nest_rows::small_row(l.coefficients, n)
}

// The words stay as they are if a number is too large for them.
pub fn put_limit(words: &mut [i16], j: usize, l: Limit, n: usize) -> Result<(), NumberOutOfRange>
    requires { LimitRoom words.old j n }
    ensures { Tried (small_limit (limit_of n l)) words.old (j * 8) (limit_words (limit_of n l)) (is_ok result) words.new }
{
    if !is_small(l, n) {
        return Err(NumberOutOfRange);
    }
    let at = j * 8;
    words[at] = l.multiplier as i16;
    words[at + 1] = nest_rows::narrow(l.constant);
    nest_rows::lay_row(words, at + 2, &l.coefficients[..n]);
    Ok(())
}

// ---- the changes that a step makes to every limit of a side

// Of the skew of the loop `between` + 1 places inside loop `outer`.
#[derive(Clone, Copy)]
pub struct CoefficientSkew {
    pub outer: usize,
    pub between: usize,
    pub factor: i32,
}

#[derive(Clone, Copy)]
pub struct CoefficientSection {
    pub place: usize,
    pub width: u32,
}

#[derive(Clone, Copy)]
pub enum Change {
    // the reversed loop's own limits, and those inside it
    ReverseLimit,
    ReverseRow(usize),
    // inside an exchange
    ExchangeRow(usize),
    // the skewed loop's own limits, and those inside it
    SkewLimit(CoefficientSkew),
    SkewRow(CoefficientSkew),
    // the two loops of a section, and those inside
    SectionLower(u32),
    SectionUpper(u32),
    SectionElement(u32),
    SectionRow(CoefficientSection),
}

pub fn change_limit(l: Limit, n: usize, change: Change) -> Limit
    requires { Allowed change n × SmallLimit (limit_of n l) }
    ensures { LimitIs (outer_after change n) result (change_of change (limit_of n l)) }
{
    let cs = l.coefficients;
    match change {
        Change::ReverseLimit => reverse_limit(l, n),
        Change::ReverseRow(a) => with_row(l, reverse_row(cs, n, a)),
        Change::ExchangeRow(a) => with_row(l, nest_rows::exchange_places(cs, n, a)),
        Change::SkewLimit(s) => skew_limit(l, n, s.outer, s.factor),
        Change::SkewRow(s) => with_row(l, skew_row(cs, n, s.outer, s.between, s.factor)),
        Change::SectionLower(w) => section_lower(l, n, w),
        Change::SectionUpper(w) => section_upper(l, n, w),
        Change::SectionElement(w) => section_element(l, n, w),
        Change::SectionRow(s) => with_row(l, section_row(cs, n, s.place, s.width)),
    }
}
