// The two loops that an exchange makes of loop I at place a and loop J inside it, put in their places among the words of the nest. Each side is
// filled first, in wide numbers and with no limit twice.
#![tactic(auto)]

ghost use Rattle.std.specs.Prelude.{◌≡◌, not, ◌&&◌, ◌+◌, ◌*◌, ◌<◌, ◌≤◌, leb, pos, length, is_ok};
ghost use mathlib.Core.List.{◌++◌, map, flat_map};
ghost use Rattle.integers.specs.Difference.{size};
ghost use Rattle.model.specs.Limits.{combined, widened, outer_coefficient, outer_part, new_outer, new_inner};
ghost use Rattle.model.specs.Grammar.{most_loops, most_limits, row_room, most_sides};
ghost use Rattle.ticket_loops.specs.LoopReads.{limit_of};
ghost use Rattle.nest_flat.specs.Flat.{loop_at};
ghost use Rattle.step_limits.specs.Small.{SmallLimit};
ghost use Rattle.step_limits.specs.Makes.{LimitIs};
ghost use Rattle.step_exchange_sides.specs.Filling.{Filled, Holds, Adds};
ghost use Rattle.step_exchange.specs.Pair.{solved, taken_of, limits_of, SpanIn, CombineIn, PartIn, TakeIn, SolveIn, ThreeIn, lower_span};
ghost use Rattle.step_exchange.specs.declared.StepError.TheVariants.{NumberOutOfRange};
ghost use Rattle.step_exchange.specs.Pair.{upper_span, FillIn, LoopHeld, loop_in, PutLoopIn, LoopPut, PairIn, Exchanges};

use model::{LIMITS, ROW_ROOM};
use nest_rows::NumberOutOfRange;
use ticket_loops::Limit;

// ---- limits

// p J against e + c I, and q I against f: p q J against q e + c f.
fn combined(a: usize, c: i32, l: Limit, m: Limit) -> Limit
    requires { (a < most_loops) × (size c ≤ 32767) × SmallLimit (limit_of (a + 1) l) × SmallLimit (limit_of a m) }
    ensures { LimitIs a result (combined a c (limit_of (a + 1) l) (limit_of a m)) }
{
    let q = m.multiplier as i32;
    let lc = l.constant;
    let mc = m.constant;
    let ls = l.coefficients;
    let ms = m.coefficients;
    let d = step_limits::combine(q, lc, c, mc);
    let ds = step_limits::combine_rows(a, q, ls, c, ms);
    Limit {
        multiplier: l.multiplier * m.multiplier,
        constant: d,
        coefficients: ds,
    }
}

// p J against e + c I, solved for |c| I.
fn solved(a: usize, l: Limit) -> Limit
    requires { (a < most_loops) × SmallLimit (limit_of (a + 1) l) × (outer_coefficient a (limit_of (a + 1) l) ≡ pos 0 → ⊥) }
    ensures { LimitIs (a + 1) result (solved a (outer_coefficient a (limit_of (a + 1) l)) (limit_of (a + 1) l)) }
{
    let p = l.multiplier as i32;
    let k = l.constant;
    let cs = l.coefficients;
    let c = cs[a];
    if 0 < c {
        let mut up = step_limits::combine_rows(a, -1, cs, 0, cs);
        up[a] = p;
        Limit {
            multiplier: c as u32,
            constant: step_limits::negate(k),
            coefficients: up,
        }
    } else {
        let mut down = cs;
        let q = step_limits::negate(p);
        down[a] = q;
        Limit {
            multiplier: step_limits::negate(c) as u32,
            constant: k,
            coefficients: down,
        }
    }
}

// One more loop outside, which the limit does not name.
fn widened(l: Limit, n: usize) -> Limit
    requires { n < most_loops }
    ensures { LimitIs (n + 1) result (widened (limit_of n l)) }
{
    let mut cs = l.coefficients;
    cs[n] = 0;
    Limit {
        multiplier: l.multiplier,
        constant: l.constant,
        coefficients: cs,
    }
}

// ---- the loop that J becomes, outside

// A side of a loop: limits from limit `from` on.
#[derive(Clone, Copy)]
pub struct SideLimits {
    pub from: usize,
    pub count: usize,
}

// A limit of J with coefficient c, combined with each of a side of I.
fn push_combined(
    filling: &mut [i32],
    count: usize,
    a: usize,
    c: i32,
    l: Limit,
    words: &[i16],
    side: SideLimits,
) -> usize
    requires { (size c ≤ 32767) × CombineIn a filling.old count l words.now side }
    ensures { Adds a filling.old count (map (combined a c (limit_of (a + 1) l)) (limits_of words.now a side))
        filling.new result }
{
    let from = side.from;
    let many = side.count;
    let mut held = count;
    for k in 0..many {
        let m = step_limits::limit_at(words, from + k, a);
        let x = combined(a, c, l, m);
        held = step_exchange_sides::push_limit(filling, held, x, a);
    }
    held
}

// A limit of J: itself where it does not name I, else a limit for each of a side of I.
fn push_part(
    filling: &mut [i32],
    count: usize,
    a: usize,
    l: Limit,
    words: &[i16],
    same: SideLimits,
    other: SideLimits,
) -> usize
    requires { PartIn a filling.old count l words.now same other }
    ensures { Adds a filling.old count (outer_part a (limits_of words.now a same) (limits_of words.now a other)
        (outer_coefficient a (limit_of (a + 1) l)) (limit_of (a + 1) l)) filling.new result }
{
    let cs = l.coefficients;
    let c = cs[a];
    if c == 0 {
        return step_exchange_sides::push_limit(filling, count, l, a);
    }
    if 0 < c {
        return push_combined(filling, count, a, c, l, words, same);
    }
    push_combined(filling, count, a, c, l, words, other)
}

fn push_outer(
    filling: &mut [i32],
    words: &[i16],
    a: usize,
    js: SideLimits,
    same: SideLimits,
    other: SideLimits,
) -> usize
    requires { ThreeIn a filling.old words.now js same other }
    ensures { Holds a filling.new result (flat_map (λ l. outer_part a (limits_of words.now a same)
        (limits_of words.now a other) (outer_coefficient a l) l) (limits_of words.now (a + 1) js))
        × Filled filling.new result }
{
    let from = js.from;
    let many = js.count;
    let n = a + 1;
    let mut held = 0;
    for k in 0..many {
        let l = step_limits::limit_at(words, from + k, n);
        held = push_part(filling, held, a, l, words, same, other);
    }
    held
}

// ---- the loop that I becomes, inside

fn push_widened(filling: &mut [i32], words: &[i16], a: usize, side: SideLimits) -> usize
    requires { (a < most_loops) × (length filling.old ≡ most_limits * row_room) × SpanIn words.now side }
    ensures { Holds (a + 1) filling.new result (map widened (limits_of words.now a side)) × Filled filling.new result }
{
    let from = side.from;
    let many = side.count;
    let n = a + 1;
    let mut held = 0;
    for k in 0..many {
        let l = step_limits::limit_at(words, from + k, a);
        let x = widened(l, a);
        held = step_exchange_sides::push_limit(filling, held, x, n);
    }
    held
}

// What a limit of J gives, on the side that takes those with c > 0 or on the other.
fn push_taken(filling: &mut [i32], count: usize, a: usize, l: Limit, positive: bool) -> usize
    requires { TakeIn a filling.old count l }
    ensures { Adds (a + 1) filling.old count (taken_of positive a (limit_of (a + 1) l)) filling.new result }
{
    let cs = l.coefficients;
    let c = cs[a];
    if c == 0 {
        return count;
    }
    let rises = 0 < c;
    if rises == positive {
        let x = solved(a, l);
        return step_exchange_sides::push_limit(filling, count, x, a + 1);
    }
    count
}

fn push_solved(
    filling: &mut [i32],
    count: usize,
    a: usize,
    words: &[i16],
    js: SideLimits,
    positive: bool,
) -> usize
    requires { SolveIn a filling.old count words.now js }
    ensures { Adds (a + 1) filling.old count (flat_map (taken_of positive a) (limits_of words.now (a + 1) js))
        filling.new result }
{
    let from = js.from;
    let many = js.count;
    let n = a + 1;
    let mut held = count;
    for k in 0..many {
        let l = step_limits::limit_at(words, from + k, n);
        held = push_taken(filling, held, a, l, positive);
    }
    held
}

// I's own side, then what the lower and the upper limits of J give to it.
fn push_inner(
    filling: &mut [i32],
    words: &[i16],
    a: usize,
    own: SideLimits,
    lower: SideLimits,
    upper: SideLimits,
    positive: bool,
) -> usize
    requires { ThreeIn a filling.old words.now own lower upper }
    ensures { Holds (a + 1) filling.new result (map widened (limits_of words.now a own) ++
        (flat_map (taken_of positive a) (limits_of words.now (a + 1) lower) ++ flat_map (taken_of (not positive) a)
        (limits_of words.now (a + 1) upper))) × Filled filling.new result }
{
    let kept = push_widened(filling, words, a, own);
    let part = push_solved(filling, kept, a, words, lower, positive);
    push_solved(filling, part, a, words, upper, !positive)
}

// ---- the pair

#[derive(Clone, Copy)]
struct LoopSides {
    lower: SideLimits,
    upper: SideLimits,
}

// Those of loop k.
fn sides_of(counts: &[usize], k: usize) -> LoopSides
    requires { (k < most_loops) × (length counts.now ≡ most_sides) }
    ensures { (result.lower ≡ lower_span counts.now k) × (result.upper ≡ upper_span counts.now k) }
{
    LoopSides {
        lower: SideLimits {
            from: k * 32,
            count: counts[k * 2],
        },
        upper: SideLimits {
            from: k * 32 + 16,
            count: counts[k * 2 + 1],
        },
    }
}

// How many limits the two sides of a loop have; 17 for a side that is full.
#[derive(Clone, Copy)]
pub struct SideCounts {
    pub lower: usize,
    pub upper: usize,
}

fn fill_outer(
    words: &[i16],
    counts: &[usize],
    a: usize,
    low: &mut [i32],
    up: &mut [i32],
) -> SideCounts
    requires { FillIn words.now counts.now a low.old up.old }
    ensures { LoopHeld a (new_outer a (loop_at words.now counts.now a)
        (loop_at words.now counts.now (a + 1))) low.new up.new result }
{
    let i = sides_of(counts, a);
    let j = sides_of(counts, a + 1);
    SideCounts {
        lower: push_outer(low, words, a, j.lower, i.lower, i.upper),
        upper: push_outer(up, words, a, j.upper, i.upper, i.lower),
    }
}

fn fill_inner(
    words: &[i16],
    counts: &[usize],
    a: usize,
    low: &mut [i32],
    up: &mut [i32],
) -> SideCounts
    requires { FillIn words.now counts.now a low.old up.old }
    ensures { LoopHeld (a + 1) (new_inner a (loop_at words.now counts.now a)
        (loop_at words.now counts.now (a + 1))) low.new up.new result }
{
    let i = sides_of(counts, a);
    let j = sides_of(counts, a + 1);
    SideCounts {
        lower: push_inner(low, words, a, i.lower, j.lower, j.upper, false),
        upper: push_inner(up, words, a, i.upper, j.lower, j.upper, true),
    }
}

fn is_full(held: SideCounts) -> bool
    ensures { result ≡ not (leb held.lower most_limits && leb held.upper most_limits) }
{
    if LIMITS < held.lower {
        return true;
    }
    LIMITS < held.upper
}

// Loop k, of two sides that are not full.
fn put_filled_loop(
    words: &mut [i16],
    counts: &mut [usize],
    k: usize,
    low: &[i32],
    up: &[i32],
    held: SideCounts,
) -> Result<(), NumberOutOfRange>
    requires { PutLoopIn (length words.old) (length counts.old) k low.now up.now held }
    ensures { LoopPut words.old counts.old k (loop_in k low.now up.now held) (is_ok result) words.new
        counts.new }
{
    step_exchange_sides::put_filled_side(words, k * 32, low, held.lower, k)?;
    step_exchange_sides::put_filled_side(words, k * 32 + 16, up, held.upper, k)?;
    counts[k * 2] = held.lower;
    counts[k * 2 + 1] = held.upper;
    Ok(())
}

// Why a step cannot be taken: a side of a loop would have more than 16 limits, or a number would be beyond ±32767.
#[derive(Clone, Copy)]
pub enum StepError {
    TooManyLimits,
    NumberOutOfRange,
}

impl From<NumberOutOfRange> for StepError {
    ghost from_gives = { λ _ e. e ≡ NumberOutOfRange };

    fn from(_e: NumberOutOfRange) -> StepError {
        StepError::NumberOutOfRange
    }
}

// Loops a and a + 1. Both are known before one is put, since each is made of both.
pub fn exchange_pair(limits: &mut [i16], counts: &mut [usize], a: usize) -> Result<(), StepError>
    requires { PairIn limits.old counts.old a }
    ensures { Exchanges limits.old counts.old a result limits.new counts.new }
{
    let mut outer_low = [0i32; LIMITS * ROW_ROOM];
    let mut outer_up = [0i32; LIMITS * ROW_ROOM];
    let outer = fill_outer(limits, counts, a, &mut outer_low, &mut outer_up);
    if is_full(outer) {
        return Err(StepError::TooManyLimits);
    }
    let mut inner_low = [0i32; LIMITS * ROW_ROOM];
    let mut inner_up = [0i32; LIMITS * ROW_ROOM];
    let inner = fill_inner(limits, counts, a, &mut inner_low, &mut inner_up);
    if is_full(inner) {
        return Err(StepError::TooManyLimits);
    }
    put_filled_loop(limits, counts, a, &outer_low, &outer_up, outer)?;
    put_filled_loop(limits, counts, a + 1, &inner_low, &inner_up, inner)?;
    Ok(())
}
