// The loops section of a ticket, read onto flat slices (`nest_flat`, specs/Flat).
#![tactic(auto)]

ghost use Rattle.std.specs.Prelude.{◌≡◌, ◌+◌, ◌*◌, ◌<◌, ◌≤◌, length, IfOk};
ghost use Rattle.lists.specs.Parts.{put};
ghost use Rattle.model.specs.Encode.{limit_words};
ghost use Rattle.model.specs.Grammar.{subscript, limit, loops, most_loops, ticket_loops, ticket_limits, row_room};
ghost use Rattle.nest_flat.specs.Flat.{loops_from, NestOk};
ghost use Rattle.ticket_words.specs.Reads.{Reads};
ghost use Rattle.ticket_loops.specs.Laid.{affine_words};
ghost use Rattle.ticket_loops.specs.LoopReads.{affine_of, AffineIn, LayAffineIn, limit_of, LimitIn, LayLimitIn, SideIn, Room};
ghost use Rattle.ticket_loops.specs.LoopReads.{ReadsSide, ReadsLoop};

use model::{LOOPS, ROW_ROOM, TICKET_LIMITS, TICKET_LOOPS};
use ticket_refusals::Refusal;
use ticket_words::Words;

// constant + coefficients · indices.
#[derive(Clone, Copy)]
pub struct Affine {
    pub constant: i32,
    pub coefficients: [i32; LOOPS],
}

// multiplier × index against constant + coefficients · indices of the loops outside. Words have 16 bits, and of such numbers a step makes
// none beyond 2 × 32767² < 2³¹ before the test of refusal 12: 32 bits hold all, and a limit goes by value, so its size is its price. That the
// coefficients are LOOPS many is a clause (LimitIn, and AffineIn above) and no ghost field: the step crates' proofs make limits as plain records.
#[derive(Clone, Copy)]
pub struct Limit {
    pub multiplier: u32,
    pub constant: i32,
    pub coefficients: [i32; LOOPS],
}

// A constant and one coefficient for each of n loops.
#[inline(always)]
pub fn read_affine(words: &mut Words, n: usize) -> Result<Affine, Refusal>
    requires { n ≤ most_loops }
    ensures reads { Reads (affine_of n) (subscript n) words.old result words.new }
    ensures within { IfOk result AffineIn }
{
    let constant = words.number()?;
    let coefficients = words.row(n)?;
    Ok(Affine {
        constant,
        coefficients,
    })
}

// A limit of a loop that has `outer` loops outside.
pub fn read_limit(words: &mut Words, outer: usize) -> Result<Limit, Refusal>
    requires { outer ≤ most_loops }
    ensures reads { Reads (limit_of outer) (limit outer) words.old result words.new }
    ensures within { IfOk result LimitIn }
{
    let multiplier = words.natural(1, 32767)?;
    let affine = read_affine(words, outer)?;
    let coefficients = affine.coefficients;
    Ok(Limit {
        multiplier: multiplier as u32,
        constant: affine.constant,
        coefficients,
    })
}

// A constant and n coefficients, from word `at` on.
pub fn lay_affine(words: &mut [i16], at: usize, affine: Affine, n: usize)
    requires { LayAffineIn (length words.old) at n affine }
    ensures { words.new ≡ put words.old at (affine_words (affine_of n affine)) }
{
    words[at] = affine.constant as i16;
    nest_rows::lay_row(words, at + 1, &affine.coefficients[..n]);
}

// Limit j of all, of a loop with `outer` loops outside.
fn lay_limit(words: &mut [i16], j: usize, limit: Limit, outer: usize)
    requires { LayLimitIn (length words.old) j outer limit }
    ensures { words.new ≡ put words.old (j * row_room) (limit_words (limit_of outer limit)) }
{
    let at = j * ROW_ROOM;
    let coefficients = limit.coefficients;
    let affine = Affine {
        constant: limit.constant,
        coefficients,
    };
    words[at] = limit.multiplier as i16;
    lay_affine(words, at + 1, affine, outer);
}

// A count and as many limits, laid from limit j on.
fn read_side(
    words: &mut Words,
    outer: usize,
    limits: &mut [i16],
    j: usize,
) -> Result<usize, Refusal>
    requires { SideIn outer j (length limits.old) }
    ensures { ReadsSide outer j words.old limits.old limits.new result words.new }
{
    let count = words.count(1, TICKET_LIMITS)?;
    for k in 0..count {
        let limit = read_limit(words, outer)?;
        lay_limit(limits, j + k, limit, outer);
    }
    Ok(count)
}

// Loop k: lower limits, then upper limits.
fn read_loop(
    words: &mut Words,
    k: usize,
    limits: &mut [i16],
    counts: &mut [usize],
) -> Result<(), Refusal>
    requires { (k < most_loops) × Room limits.old counts.old }
    ensures { ReadsLoop k words.old limits.old limits.new counts.old counts.new result words.new }
{
    counts[k * 2] = read_side(words, k, limits, k * 32)?;
    counts[k * 2 + 1] = read_side(words, k, limits, k * 32 + 16)?;
    Ok(())
}

// The section: a count and as many loops, each with those before it outside. It answers how many.
pub fn read_loops(
    words: &mut Words,
    limits: &mut [i16],
    counts: &mut [usize],
) -> Result<usize, Refusal>
    requires { Room limits.old counts.old }
    ensures reads { Reads (loops_from limits.new counts.new 0) (loops ticket_loops ticket_limits) words.old result words.new }
    ensures ok { IfOk result (NestOk limits.new counts.new) }
    ensures room { Room limits.new counts.new }
    ensures shallow { IfOk result (λ depth. depth ≤ ticket_loops) }
{
    let depth = words.count(1, TICKET_LOOPS)?;
    for k in 0..depth {
        read_loop(words, k, limits, counts)?;
    }
    Ok(depth)
}
