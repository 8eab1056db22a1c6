// The steps section of a ticket.
#![tactic(auto)]

ghost use Rattle.std.specs.Prelude.{◌≡◌, ◌≢◌, ◌≤◌, nat_abs, IfOk};
ghost use Rattle.model.specs.Grammar as Grammar;
ghost use Rattle.model.specs.Grammar.{most_loops, most_factor};
ghost use Rattle.model.specs.Ranges.{InRange};
ghost use Rattle.ticket_words.specs.Reads.{Reads, plain};
ghost use Rattle.step_kinds.specs.Kinds.{step_of};
ghost use Rattle.ticket_steps.specs.Steps.{steps_of, StepsIn, sectionable, one_step, factor, other_loop};

use model::{LOOPS, STEP_KINDS};
use step_kinds::{Circulation, Exchange, Reversal, Section, Skew, Step};
use ticket_refusals::Refusal;
use ticket_words::Words;

// A step with its number, from 1.
#[derive(Clone, Copy)]
pub struct Numbered {
    pub number: usize,
    pub step: Step,
}

// The first `count` steps, in an array of the most that there are, since the library has no heap.
#[derive(Clone, Copy)]
pub struct Steps {
    pub count: usize,
    pub steps: [Numbered; 8],
}

// Each step is read after its kind: number is the step's, depth that of the nest when it is reached.
pub fn read_exchange(words: &mut Words, number: usize, depth: usize) -> Result<Step, Refusal>
    requires { depth ≤ most_loops }
    ensures reads { Reads step_of (Grammar.exchange_step number depth) words.old result words.new }
    ensures few { IfOk result (λ x. Grammar.depth_after (step_of x) depth ≤ most_loops) }
{
    let a = words.loop_number(number, 1, depth)?;
    // the next loop, or none inside the last
    words.loop_number(number, a + 1, depth.min(a + 1))?;
    words.natural(0, 0)?;
    Ok(Step::Exchange(Exchange { outer: a - 1 }))
}

pub fn read_reversal(words: &mut Words, number: usize, depth: usize) -> Result<Step, Refusal>
    requires { depth ≤ most_loops }
    ensures reads { Reads step_of (Grammar.reversal_step number depth) words.old result words.new }
    ensures few { IfOk result (λ x. Grammar.depth_after (step_of x) depth ≤ most_loops) }
{
    let a = words.loop_number(number, 1, depth)?;
    words.natural(0, 0)?;
    words.natural(0, 0)?;
    Ok(Step::Reversal(Reversal { target: a - 1 }))
}

// The greatest factor of a skew, on either side of 0.
pub const MOST_FACTOR: u16 = 1;

// The factor of a skew, which is not 0.
pub fn read_factor(words: &mut Words) -> Result<i32, Refusal>
    ensures reads { Reads plain factor words.old result words.new }
    ensures near { IfOk result (λ c. InRange 1 most_factor (nat_abs c)) }
{
    let at = words.next;
    let c = words.number()?;
    let size = c.unsigned_abs();
    if size == 0 {
        return Err(Refusal::WordOutOfRange(at));
    }
    if u32::from(MOST_FACTOR) < size {
        return Err(Refusal::WordOutOfRange(at));
    }
    Ok(c)
}

pub fn read_skew(words: &mut Words, number: usize, depth: usize) -> Result<Step, Refusal>
    requires { depth ≤ most_loops }
    ensures reads { Reads step_of (Grammar.skew_step number depth) words.old result words.new }
    ensures few { IfOk result (λ x. Grammar.depth_after (step_of x) depth ≤ most_loops) }
{
    let a = words.loop_number(number, 1, depth)?;
    let b = words.loop_number(number, a + 1, depth)?;
    let factor = read_factor(words)?;
    Ok(Step::Skew(Skew {
        outer: a - 1,
        distance: b - a - 1,
        factor,
    }))
}

// No loop of a nest of six can be sectioned.
fn sectioned_most(depth: usize) -> usize
    requires { depth ≤ most_loops }
    ensures { (result ≡ sectionable depth) × (result ≤ most_loops) }
{
    if depth < LOOPS { depth } else { 0 }
}

pub fn read_section(words: &mut Words, number: usize, depth: usize) -> Result<Step, Refusal>
    requires { depth ≤ most_loops }
    ensures reads { Reads step_of (Grammar.section_step number depth) words.old result words.new }
    ensures few { IfOk result (λ x. Grammar.depth_after (step_of x) depth ≤ most_loops) }
{
    let a = words.loop_number(number, 1, sectioned_most(depth))?;
    let width = words.natural(2, 256)?;
    words.natural(0, 0)?;
    Ok(Step::Section(Section {
        target: a - 1,
        width,
    }))
}

// The number of a loop other than loop a.
fn read_other_loop(
    words: &mut Words,
    number: usize,
    depth: usize,
    a: usize,
) -> Result<usize, Refusal>
    requires { depth ≤ most_loops }
    ensures reads { Reads plain (Grammar.loop_number number (other_loop depth a)) words.old result words.new }
    ensures within { IfOk result (λ b. (1 ≤ b) × (b ≤ depth)) }
    ensures other { IfOk result (λ b. b ≢ a) }
{
    let b = words.loop_number(number, 1, depth)?;
    if b == a {
        return Err(Refusal::LoopOutOfNest(number));
    }
    Ok(b)
}

pub fn read_circulation(words: &mut Words, number: usize, depth: usize) -> Result<Step, Refusal>
    requires { depth ≤ most_loops }
    ensures reads { Reads step_of (Grammar.circulation_step number depth) words.old result words.new }
    ensures few { IfOk result (λ x. Grammar.depth_after (step_of x) depth ≤ most_loops) }
{
    let a = words.loop_number(number, 1, depth)?;
    let b = read_other_loop(words, number, depth, a)?;
    words.natural(0, 0)?;
    Ok(Step::Circulation(Circulation {
        from: a - 1,
        to: b - 1,
    }))
}

pub fn read_step(words: &mut Words, number: usize, depth: usize) -> Result<Step, Refusal>
    requires { depth ≤ most_loops }
    ensures reads { Reads step_of (one_step number depth) words.old result words.new }
    ensures few { IfOk result (λ x. Grammar.depth_after (step_of x) depth ≤ most_loops) }
{
    let kind = words.natural(1, STEP_KINDS)?;
    match kind {
        1 => read_exchange(words, number, depth),
        2 => read_reversal(words, number, depth),
        3 => read_skew(words, number, depth),
        4 => read_section(words, number, depth),
        _ => read_circulation(words, number, depth),
    }
}

// The section: a count from 0 to 8 and as many steps of a nest that has `depth` loops.
pub fn read_steps(words: &mut Words, depth: usize) -> Result<Steps, Refusal>
    requires { depth ≤ most_loops }
    ensures reads { Reads steps_of (Grammar.steps depth) words.old result words.new }
    ensures within { IfOk result StepsIn }
{
    let count = words.count(0, 8)?;
    let mut steps = [Numbered {
        number: 0,
        step: Step::Reversal(Reversal { target: 0 }),
    }; 8];
    let mut loops = depth;
    for k in 0..count {
        let step = read_step(words, k + 1, loops)?;
        loops = step_kinds::depth_after(step, loops);
        steps[k] = Numbered {
            number: k + 1,
            step,
        };
    }
    Ok(Steps { count, steps })
}
