// The nest after each step, on its flat slices, with the tests of refusals 11 and 12. Loops are counted from 0.
#![tactic(auto)]

ghost use Rattle.std.specs.Prelude.{◌≡◌, ℕ, ◌+◌, ◌<◌, pos, is_ok};
ghost use Rattle.model.specs.Ticket.{reversal, skew, section, exchange};
ghost use Rattle.model.specs.Grammar.{most_loops};
ghost use Rattle.ticket_loops.specs.LoopReads.{limit_of, LimitIn};
ghost use Rattle.nest_flat.specs.Flat.{limits_at, loop_at};
ghost use Rattle.step_changes.specs.Sides.{SideMade};
ghost use Rattle.step_changes.specs.Loops.{LoopMade};
ghost use Rattle.step_loops.specs.After.{ReversalIn, SkewIn, SectionIn, ExchangeIn, After};
ghost use Rattle.step_loops.specs.Sections.{ElementSideIn, ElementLoopIn, element_side, element_loop};
ghost use Rattle.model.specs.Limits.{constant_limit};

use model::{LIMITS, LOOPS};
use nest_rows::NumberOutOfRange;
use step_exchange::StepError;
use step_limits::{Change, CoefficientSection, CoefficientSkew};
use ticket_loops::Limit;

pub fn reverse_loop(
    limits: &mut [i16],
    counts: &mut [usize],
    depth: usize,
    a: usize,
) -> Result<(), StepError>
    requires { ReversalIn limits.old counts.old depth a }
    ensures { After (reversal a) limits.old counts.old depth result limits.new counts.new }
{
    let start = a + 1;
    step_changes::change_loops(
        limits,
        counts,
        start,
        depth - start,
        0,
        Change::ReverseRow(a),
    )?;
    step_changes::exchange_sides(limits, counts, a);
    step_changes::change_loop(
        limits,
        counts,
        a,
        a,
        Change::ReverseLimit,
        Change::ReverseLimit,
    )?;
    Ok(())
}

// The loop d + 1 places inside loop a.
pub fn skew_loop(
    limits: &mut [i16],
    counts: &mut [usize],
    depth: usize,
    a: usize,
    d: usize,
    factor: i32,
) -> Result<(), StepError>
    requires { SkewIn limits.old counts.old depth a d factor }
    ensures { After (skew a d factor) limits.old counts.old depth result limits.new counts.new }
{
    let b = a + 1 + d;
    let start = b + 1;
    let by = CoefficientSkew {
        outer: a,
        between: d,
        factor: factor,
    };
    step_changes::change_loops(limits, counts, start, depth - start, 0, Change::SkewRow(by))?;
    step_changes::change_loop(
        limits,
        counts,
        b,
        b,
        Change::SkewLimit(by),
        Change::SkewLimit(by),
    )?;
    Ok(())
}

// Loops a and a + 1.
pub fn exchange_loops(
    limits: &mut [i16],
    counts: &mut [usize],
    depth: usize,
    a: usize,
) -> Result<(), StepError>
    requires { ExchangeIn limits.old counts.old depth a }
    ensures { After (exchange a) limits.old counts.old depth result limits.new counts.new }
{
    step_exchange::exchange_pair(limits, counts, a)?;
    let start = a + 1 + 1;
    step_changes::change_loops(
        limits,
        counts,
        start,
        depth - start,
        0,
        Change::ExchangeRow(a),
    )?;
    Ok(())
}

// ---- section

// index ≥ v among lower limits, index ≤ v among upper ones: a coefficient 0 for each loop outside.
pub fn constant_limit(v: i32) -> Limit
    ensures is { (a n : ℕ) → a < most_loops → v ≡ pos n → limit_of (a + 1) result ≡ constant_limit a n }
    ensures within { (result.multiplier ≡ 1) × LimitIn result }
{
    Limit {
        multiplier: 1,
        constant: v,
        coefficients: [0; LOOPS],
    }
}

// A side of E from limit `to` on, of the limits from limit `from` on with n loops outside.
fn element_side(
    limits: &mut [i16],
    from: usize,
    n: usize,
    to: usize,
    count: usize,
    w: u32,
    v: u32,
) -> Result<(), NumberOutOfRange>
    requires { ElementSideIn limits.old from n to count w v }
    ensures { SideMade limits.old to (n + 1) (count + 1) (element_side n w v (limits_at limits.old n from count)) (is_ok result)
        limits.new }
{
    let first = constant_limit(v as i32);
    step_limits::put_limit(limits, to, first, n + 1)?;
    let change = Change::SectionElement(w);
    step_changes::change_side(limits, from, n, to + 1, n + 1, count, change)
}

// E, inside loop a.
fn element_loop(
    limits: &mut [i16],
    counts: &mut [usize],
    a: usize,
    w: u32,
) -> Result<(), NumberOutOfRange>
    requires { ElementLoopIn limits.old counts.old a w }
    ensures { LoopMade limits.old counts.old (a + 1)
        (element_loop a w (loop_at limits.old counts.old a)) (is_ok result) limits.new counts.new }
{
    let lower = counts[a * 2];
    let upper = counts[a * 2 + 1];
    let b = a + 1;
    element_side(limits, a * 32, a, b * 32, lower, w, 0)?;
    element_side(limits, a * 32 + 16, a, b * 32 + 16, upper, w, w - 1)?;
    counts[b * 2] = lower + 1;
    counts[b * 2 + 1] = upper + 1;
    Ok(())
}

// Loop a by width w: S, and E inside it.
pub fn section_loop(
    limits: &mut [i16],
    counts: &mut [usize],
    depth: usize,
    a: usize,
    w: u32,
) -> Result<(), StepError>
    requires { SectionIn limits.old counts.old depth a w }
    ensures { After (section a w) limits.old counts.old depth result limits.new counts.new }
{
    let lower = counts[a * 2];
    let upper = counts[a * 2 + 1];
    if LIMITS <= lower {
        return Err(StepError::TooManyLimits);
    }
    if LIMITS <= upper {
        return Err(StepError::TooManyLimits);
    }
    let b = a + 1;
    let by = CoefficientSection { place: a, width: w };
    step_changes::change_loops(limits, counts, b, depth - b, 1, Change::SectionRow(by))?;
    element_loop(limits, counts, a, w)?;
    step_changes::change_loop(
        limits,
        counts,
        a,
        a,
        Change::SectionLower(w),
        Change::SectionUpper(w),
    )?;
    Ok(())
}
