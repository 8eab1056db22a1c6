// A side that is filled limit by limit, in wide numbers. n is the number of loops outside.
#![tactic(auto)]

ghost use Rattle.std.specs.Prelude.{◌≡◌, [], ◌∷◌, ℕ, ◌+◌, ◌*◌, ◌<◌, ◌≤◌, length, take, drop, is_ok};
ghost use Rattle.lists.specs.Parts.{put};
ghost use Rattle.lists.specs.Tests.{any, same_by};
ghost use Rattle.integers.specs.Sign.{eq_z};
ghost use Rattle.model.specs.Encode.{limit_words};
ghost use Rattle.model.specs.Grammar.{most_limits, most_loops, row_room};
ghost use Rattle.nest_flat.specs.Flat.{limit_at, limits_at};
ghost use Rattle.step_limits.specs.Makes.{LimitIs};
ghost use Rattle.step_exchange_sides.specs.Filling.{Adds, WideIn, SameIn, PushIn, HeldIn, PutIn, SidePut};
ghost use Rattle.model.specs.Limits.{same_limit};
ghost use Rattle.ticket_loops.specs.LoopReads.{limit_of};

use model::{LIMITS, LOOPS};
use nest_rows::NumberOutOfRange;
use ticket_loops::Limit;

// ---- equal limits

// A row, and the numbers from place `at` on. Not by `==` of slices, which is a call: steps on nests of many limits take a third more time with it.
fn same_row(xs: [i32; LOOPS], numbers: &[i32], at: usize, n: usize) -> bool
    requires { (n ≤ most_loops) × (at + n ≤ length numbers.now) }
    ensures { result ≡ same_by eq_z (take n xs) (take n (drop at numbers.now)) }
{
    for k in 0..n {
        if xs[k] != numbers[at + k] {
            return false;
        }
    }
    true
}

// Limit k of a side under way.
fn same_limit(x: Limit, filling: &[i32], k: usize, n: usize) -> bool
    requires { SameIn n filling.now k x }
    ensures { result ≡ same_limit (limit_of n x) (limit_at filling.now n k) }
{
    let at = k * 8;
    if x.multiplier as i32 != filling[at] {
        return false;
    }
    if x.constant != filling[at + 1] {
        return false;
    }
    same_row(x.coefficients, filling, at + 2, n)
}

fn has_limit(filling: &[i32], count: usize, x: Limit, n: usize) -> bool
    requires { PushIn n filling.now count x × (count ≤ most_limits) }
    ensures { result ≡ any (same_limit (limit_of n x)) (limits_at filling.now n 0 count) }
{
    for k in 0..count {
        if same_limit(x, filling, k, n) {
            return true;
        }
    }
    false
}

// ---- sides that are filled limit by limit

fn fill_limit(filling: &mut [i32], k: usize, x: Limit, n: usize)
    requires { WideIn n x × (length filling.old ≡ most_limits * row_room) × (k < most_limits) }
    ensures { filling.new ≡ put filling.old (k * 8) (limit_words (limit_of n x)) }
{
    let at = k * 8;
    filling[at] = x.multiplier as i32;
    filling[at + 1] = x.constant;
    filling[at + 2..at + 2 + n].copy_from_slice(&x.coefficients[..n]);
}

// A limit more, unless it is there; 17 where a seventeenth comes, and from then on. No Result: `Adds` and `Holds` (specs/Filling) speak of the
// count of a side that goes on being filled, 17 included.
pub fn push_limit(filling: &mut [i32], count: usize, x: Limit, n: usize) -> usize
    requires { PushIn n filling.old count x }
    ensures { Adds n filling.old count (limit_of n x ∷ []) filling.new result }
{
    if LIMITS < count {
        return count;
    }
    if has_limit(filling, count, x, n) {
        return count;
    }
    if count == LIMITS {
        return 17;
    }
    fill_limit(filling, count, x, n);
    count + 1
}

// ---- a side put among the words of a nest

// Limit k of a side under way. Six coefficients, whether or not all of them count: with no loop.
fn limit_of(filling: &[i32], k: usize) -> Limit
    requires { HeldIn filling.now k }
    ensures { (n : ℕ) → n ≤ 6 → LimitIs n result (limit_at filling.now n k) }
{
    let at = k * 8;
    Limit {
        multiplier: filling[at] as u32,
        constant: filling[at + 1],
        coefficients: [
            filling[at + 2],
            filling[at + 3],
            filling[at + 4],
            filling[at + 5],
            filling[at + 6],
            filling[at + 7],
        ],
    }
}

// The limits of a side, from limit j on, as far as the first that has a number beyond ±32767.
pub fn put_filled_side(
    words: &mut [i16],
    j: usize,
    filling: &[i32],
    count: usize,
    n: usize,
) -> Result<(), NumberOutOfRange>
    requires { PutIn (length words.old) j filling.now count n }
    ensures { SidePut words.old j (limits_at filling.now n 0 count) (is_ok result) words.new }
{
    for k in 0..count {
        let x = limit_of(filling, k);
        step_limits::put_limit(words, j + k, x, n)?;
    }
    Ok(())
}
