// A step of one of the five kinds, and the stages in which it is taken on a nest: a circulation exchange by exchange, any other at once. Loops are
// counted from 0.
#![tactic(auto)]

ghost use Rattle.std.specs.Prelude.{◌≡◌, ◌≤◌, ◌<◌, length, get_or};
ghost use Rattle.model.specs.Ticket.{exchange};
ghost use Rattle.model.specs.Grammar.{most_loops, depth_after};
ghost use Rattle.model.specs.Steps.{chain};
ghost use Rattle.model.specs.Judge.{stages};
ghost use Rattle.step_kinds.specs.Kinds.{step_of, stage_of};

#[derive(Clone, Copy)]
pub struct Exchange {
    pub outer: usize,
}

#[derive(Clone, Copy)]
pub struct Reversal {
    pub target: usize,
}

// By loop `outer` the loop `distance` + 1 places inside it.
#[derive(Clone, Copy)]
pub struct Skew {
    pub outer: usize,
    pub distance: usize,
    pub factor: i32,
}

#[derive(Clone, Copy)]
pub struct Section {
    pub target: usize,
    pub width: usize,
}

// Loop `from` goes to place `to`, and those between close up.
#[derive(Clone, Copy)]
pub struct Circulation {
    pub from: usize,
    pub to: usize,
}

#[derive(Clone, Copy)]
pub enum Step {
    Exchange(Exchange),
    Reversal(Reversal),
    Skew(Skew),
    Section(Section),
    Circulation(Circulation),
}

#[derive(Clone, Copy)]
pub enum Stage {
    Exchange(Exchange),
    Reversal(Reversal),
    Skew(Skew),
    Section(Section),
}

// ---- the number of loops after a step, and after a stage

pub fn depth_after(step: Step, depth: usize) -> usize
    requires { depth ≤ most_loops }
    ensures { result ≡ depth_after (step_of step) depth }
{
    match step {
        Step::Exchange(_) => depth,
        Step::Reversal(_) => depth,
        Step::Skew(_) => depth,
        Step::Section(_) => depth + 1,
        Step::Circulation(_) => depth,
    }
}

// Not by `depth_after`: a conversion of a stage to a step would match the four kinds too.
pub fn depth_after_stage(stage: Stage, depth: usize) -> usize
    requires { depth ≤ most_loops }
    ensures { result ≡ depth_after (stage_of stage) depth }
{
    match stage {
        Stage::Exchange(_) => depth,
        Stage::Reversal(_) => depth,
        Stage::Skew(_) => depth,
        Stage::Section(_) => depth + 1,
    }
}

// ---- the neighbouring exchanges that take loop a to place b, each by the place of its outer loop

// How many there are.
pub fn chain_length(a: usize, b: usize) -> usize
    ensures { result ≡ length (chain a b) }
{
    if a < b {
        return b - a;
    }
    a - b
}

// Number j of them: inwards from a on, outwards from the loop before it.
pub fn exchange_at(a: usize, b: usize, j: usize) -> usize
    requires { j < length (chain a b) }
    ensures { result ≡ get_or (chain a b) j 0 }
{
    if a < b {
        return a + j;
    }
    a - 1 - j
}

// ---- the stages of a step

pub fn stage_count(step: Step) -> usize
    ensures { result ≡ length (stages (step_of step)) }
{
    match step {
        Step::Exchange(_) => 1,
        Step::Reversal(_) => 1,
        Step::Skew(_) => 1,
        Step::Section(_) => 1,
        Step::Circulation(e) => {
            let a = e.from;
            let b = e.to;
            chain_length(a, b)
        }
    }
}

// Stage j of them.
pub fn stage_at(step: Step, j: usize) -> Stage
    requires { j < length (stages (step_of step)) }
    ensures { stage_of result ≡ get_or (stages (step_of step)) j (exchange 0) }
{
    match step {
        Step::Exchange(e) => Stage::Exchange(e),
        Step::Reversal(e) => Stage::Reversal(e),
        Step::Skew(e) => Stage::Skew(e),
        Step::Section(e) => Stage::Section(e),
        Step::Circulation(e) => {
            let a = e.from;
            let b = e.to;
            let k = exchange_at(a, b, j);
            Stage::Exchange(Exchange { outer: k })
        }
    }
}
