// From an admitted nest in its flat form, its steps and its directions to the new nest in its flat form; or the first refusal of 10 to 13. Loops are
// counted from 0.
#![tactic(auto)]

ghost use Rattle.std.specs.Prelude.{◌≡◌, ◌≤◌};
ghost use Rattle.model.specs.Grammar.{depth_after};
ghost use Rattle.model.specs.Judge.{stages};
ghost use Rattle.step_kinds.specs.Kinds.{step_of};
ghost use Rattle.step_directions.specs.Sets.{DirectionIn, After};
ghost use Rattle.nest_flat.specs.FlatNests.{flat, flat_nest, FlatNestIn};
ghost use Rattle.step_application.specs.Taking.{TakingIn};
ghost use Rattle.step_judgement.specs.Judgement.{StageTaken, flat_nest_at, TakeIn, Taken, SurveyedNew, JudgeIn, JudgesSteps, Judges, stage_refusal};

use model::{ACCESS_ROOM, ARRAY_ROOM};
use nest_flat::{FlatNest, Header};
use nest_points::SpaceError;
use step_directions::DirectionSet;
use step_exchange::StepError;
use step_kinds::{Stage, Step};
use ticket_refusals::Refusal;
use ticket_steps::Steps;

// The new nest and its directions; its limits and the words of its accesses stand where the old ones stood.
#[derive(Clone, Copy)]
pub struct Judged {
    pub header: Header,
    pub directions: DirectionSet,
}

// ---- one step

// A set without vectors stays one, whatever the step.
fn directions_after(set: DirectionSet, step: Step) -> DirectionSet
    requires { DirectionIn set step }
    ensures { After (step_of step) set result × (result.depth ≤ 6) }
{
    if step_directions::is_empty(set) {
        return step_directions::empty(step_kinds::depth_after(step, set.depth));
    }
    step_directions::set_after(set, step)
}

// Refusal 11 or 12 of step `number`.
fn stage_refusal(e: StepError, number: usize) -> Refusal
    ensures { result ≡ stage_refusal e number }
{
    match e {
        StepError::TooManyLimits => Refusal::TooManyLimits(number),
        StepError::NumberOutOfRange => Refusal::NumberOutOfRange(number),
    }
}

// Takes a stage of step `number` on the slices of a flat nest.
fn take_stage(
    limits: &mut [i16],
    counts: &mut [usize],
    words: &mut [i16],
    accessed: &[usize],
    extents: &[usize],
    depth: usize,
    stage: Stage,
    number: usize,
) -> Result<(), Refusal>
    requires { TakingIn limits.old counts.old words.old accessed.now extents.now depth stage }
    ensures { StageTaken stage number limits.old counts.old words.old accessed.now
        extents.now depth result limits.new counts.new words.new }
{
    match step_application::apply_stage(limits, counts, words, accessed, extents, depth, stage) {
        Ok(()) => Ok(()),
        Err(e) => Err(stage_refusal(e, number)),
    }
}

// Takes step `number` stage by stage on a flat nest that has by now these loops: the header tells the parts in use.
fn take(
    header: Header,
    limits: &mut [i16],
    counts: &mut [usize],
    words: &mut [i16],
    depth: usize,
    step: Step,
    number: usize,
) -> Result<(), Refusal>
    requires { TakeIn (flat_nest_at header depth limits.old counts.old words.old) (step_of step) }
    ensures { Taken (stages (step_of step)) (depth_after (step_of step) depth) number
        (flat_nest_at header depth limits.old counts.old words.old) result limits.new counts.new
        words.new }
{
    let accesses = header.accesses;
    let arrays = header.arrays;
    let accessed = header.accessed;
    let extents = header.extents;
    let mut loops = depth;
    for j in 0..step_kinds::stage_count(step) {
        let stage = step_kinds::stage_at(step, j);
        take_stage(
            limits,
            counts,
            &mut words[..accesses * ACCESS_ROOM],
            &accessed[..accesses],
            &extents[..arrays * ARRAY_ROOM],
            loops,
            stage,
            number,
        )?;
        loops = step_kinds::depth_after_stage(stage, loops);
    }
    Ok(())
}

// ---- all steps

// Refusal 10 is tested before a step is taken, since it needs the vectors alone.
fn judge_steps(
    header: Header,
    limits: &mut [i16],
    words: &mut [i16],
    steps: Steps,
    set: DirectionSet,
) -> Result<Judged, Refusal>
    requires { JudgeIn (flat_nest header limits.old words.old) steps set }
    ensures { JudgesSteps (flat_nest header limits.old words.old) steps result limits.new words.new }
{
    let count = steps.count;
    let all = steps.steps;
    let mut counts = header.counts;
    let mut depth = header.depth;
    let mut vectors = set;
    for k in 0..count {
        let numbered = all[k];
        let number = numbered.number;
        let step = numbered.step;
        let after = directions_after(vectors, step);
        if step_directions::points_back(after) {
            return Err(Refusal::DependenceReversed(number));
        }
        take(header, limits, &mut counts, words, depth, step, number)?;
        depth = step_kinds::depth_after(step, depth);
        vectors = after;
    }
    Ok(Judged {
        header: Header {
            depth,
            counts,
            ..header
        },
        directions: vectors,
    })
}

// ---- the new nest

// Refusal 13: by the ranges of the loops, or by the points.
fn survey_new(nest: &FlatNest) -> Result<(), Refusal>
    requires { FlatNestIn (flat nest.now) }
    ensures { SurveyedNew (flat nest.now) result }
{
    if nest_bounding_box::stays_compact(nest) {
        return Ok(());
    }
    match nest_points::survey(nest, 100000, 65536) {
        Ok(_) => Ok(()),
        Err(SpaceError::IndexTooLarge(k)) => Err(Refusal::NewNestTooLarge(k)),
        Err(SpaceError::CountTooLarge(k)) => Err(Refusal::NewNestTooLarge(k)),
    }
}

// The set has the vectors of the nest's directions.
pub fn judge_ticket(
    header: Header,
    limits: &mut [i16],
    words: &mut [i16],
    steps: Steps,
    set: DirectionSet,
) -> Result<Judged, Refusal>
    requires { JudgeIn (flat_nest header limits.old words.old) steps set }
    ensures { Judges (flat_nest header limits.old words.old) steps result limits.new words.new }
{
    let judged = judge_steps(header, limits, words, steps, set)?;
    let new = FlatNest {
        header: &judged.header,
        limits,
        words,
    };
    survey_new(&new)?;
    Ok(judged)
}
