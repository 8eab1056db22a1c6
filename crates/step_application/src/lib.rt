// A stage of a step taken on the limits and the subscripts of a nest where they stand, with the tests of refusals 11 and 12. Loops are counted from
// 0.
#![tactic(auto)]

ghost use Rattle.std.specs.Prelude.{◌≡◌};
ghost use Rattle.step_kinds.specs.Kinds.{stage_of};
ghost use Rattle.step_loops.specs.After.{After};
ghost use Rattle.step_application.specs.Taking.{LoopsIn, TakingIn, Takes};

use step_exchange::StepError;
use step_kinds::Stage;

fn stage_loops(
    limits: &mut [i16],
    counts: &mut [usize],
    depth: usize,
    stage: Stage,
) -> Result<(), StepError>
    requires { LoopsIn limits.old counts.old depth stage }
    ensures { After (stage_of stage) limits.old counts.old depth result limits.new counts.new }
{
    match stage {
        Stage::Exchange(e) => step_loops::exchange_loops(limits, counts, depth, e.outer),
        Stage::Reversal(e) => step_loops::reverse_loop(limits, counts, depth, e.target),
        Stage::Skew(e) => {
            step_loops::skew_loop(limits, counts, depth, e.outer, e.distance, e.factor)
        }
        Stage::Section(e) => {
            step_loops::section_loop(limits, counts, depth, e.target, e.width as u32)
        }
    }
}

// Where a side is full or a number large, the slices are of no use afterwards.
pub fn apply_stage(
    limits: &mut [i16],
    counts: &mut [usize],
    words: &mut [i16],
    accessed: &[usize],
    extents: &[usize],
    depth: usize,
    stage: Stage,
) -> Result<(), StepError>
    requires { TakingIn limits.old counts.old words.old accessed.now extents.now depth stage }
    ensures { Takes (stage_of stage) limits.old counts.old words.old accessed.now
        extents.now depth result limits.new counts.new words.new }
{
    stage_loops(limits, counts, depth, stage)?;
    step_subscripts::change_accesses(words, accessed, extents, depth, stage)?;
    Ok(())
}
