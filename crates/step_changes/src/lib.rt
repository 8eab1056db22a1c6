// Sides and loops on the flat slices of a nest, changed limit by limit, in place or further in. It ends at the first limit that has a number
// beyond ±32767; what the slices hold then does not matter.
#![tactic(auto)]

ghost use Rattle.std.specs.Prelude.{is_ok};
ghost use Rattle.nest_flat.specs.Flat.{loop_at};
ghost use Rattle.step_changes.specs.Sides.{SideIn, SideMade, changed_side};
ghost use Rattle.step_changes.specs.Loops.{LoopIn, LoopMade, on_sides, LoopsIn, LoopsMade};
ghost use Rattle.step_changes.specs.Flips.{TradeIn, Traded, FlipIn, Flipped};

use nest_rows::NumberOutOfRange;
use step_limits::Change;

// ---- sides

// `count` limits from limit `from` on, with n loops outside, are changed and put from limit `to` on, with m loops outside.
pub fn change_side(
    words: &mut [i16],
    from: usize,
    n: usize,
    to: usize,
    m: usize,
    count: usize,
    change: Change,
) -> Result<(), NumberOutOfRange>
    requires { SideIn change words.old from n to m count }
    ensures { SideMade words.old to m count (changed_side change words.old from n count) (is_ok result) words.new }
{
    for i in 0..count {
        let l = step_limits::limit_at(words, from + i, n);
        let x = step_limits::change_limit(l, n, change);
        step_limits::put_limit(words, to + i, x, m)?;
    }
    Ok(())
}

// ---- loops

// Loop k, its lower limits changed by `lo` and its upper ones by `hi`, becomes loop `to`: itself, or one further in.
pub fn change_loop(
    limits: &mut [i16],
    counts: &mut [usize],
    k: usize,
    to: usize,
    lo: Change,
    hi: Change,
) -> Result<(), NumberOutOfRange>
    requires { LoopIn lo hi limits.old counts.old k to }
    ensures { LoopMade limits.old counts.old to (on_sides lo hi (loop_at limits.old counts.old k))
        (is_ok result) limits.new counts.new }
{
    let lower = counts[k * 2];
    let upper = counts[k * 2 + 1];
    change_side(limits, k * 32, k, to * 32, to, lower, lo)?;
    change_side(limits, k * 32 + 16, k, to * 32 + 16, to, upper, hi)?;
    counts[to * 2] = lower;
    counts[to * 2 + 1] = upper;
    Ok(())
}

// The loops from place `start` on, changed, `by` places further in: the innermost first, so that each is read before another is put there.
pub fn change_loops(
    limits: &mut [i16],
    counts: &mut [usize],
    start: usize,
    many: usize,
    by: usize,
    change: Change,
) -> Result<(), NumberOutOfRange>
    requires { LoopsIn change limits.old counts.old start many by }
    ensures { LoopsMade change limits.old counts.old start many by (is_ok result) limits.new counts.new }
{
    for k in (start..start + many).rev() {
        change_loop(limits, counts, k, k + by, change, change)?;
    }
    Ok(())
}

// ---- the two sides of a loop

// `many` words from place a on and from place b on trade places.
fn exchange_words(words: &mut [i16], a: usize, b: usize, many: usize)
    requires { TradeIn words.old a b many }
    ensures { Traded words.old a b many words.new }
{
    for i in 0..many {
        words.swap(a + i, b + i);
    }
}

// The lower limits of loop k become the upper ones, and the upper the lower.
pub fn exchange_sides(limits: &mut [i16], counts: &mut [usize], k: usize)
    requires { FlipIn limits.old counts.old k }
    ensures { Flipped limits.old counts.old k limits.new counts.new }
{
    let most = counts[k * 2].max(counts[k * 2 + 1]);
    exchange_words(limits, k * 256, k * 256 + 128, most * 8);
    counts.swap(k * 2, k * 2 + 1);
}
