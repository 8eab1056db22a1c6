// What a stage of a step makes of the subscripts of all accesses, on the slice where they are laid out (`nest_flat`, specs/Layout), with the test of
// refusal 12. n is the number of loops before the stage, m that after it.
#![tactic(auto)]

ghost use Rattle.std.specs.Prelude.{take, is_ok};
ghost use Rattle.integers.specs.Affine.{Within};
ghost use Rattle.model.specs.Grammar.{depth_after};
ghost use Rattle.model.specs.Limits.{coefficients_after};
ghost use Rattle.nest_rows.specs.Rows.{RowIs};
ghost use Rattle.step_kinds.specs.Kinds.{stage_of};
ghost use Rattle.step_subscripts.specs.After.{StepFits, ChangeIn, Changes, AccessesIn, AccessesAfter};

use model::{ARRAY_ROOM, LOOPS};
use nest_rows::NumberOutOfRange;
use step_kinds::Stage;

fn row_after(cs: [i32; LOOPS], n: usize, stage: Stage) -> [i32; LOOPS]
    requires { StepFits n stage × Within 32767 (take n cs) }
    ensures { RowIs (depth_after (stage_of stage) n) result (coefficients_after (stage_of stage) (take n cs)) }
{
    match stage {
        Stage::Exchange(e) => nest_rows::exchange_places(cs, n, e.outer),
        Stage::Reversal(e) => step_limits::reverse_row(cs, n, e.target),
        Stage::Skew(e) => step_limits::skew_row(cs, n, e.outer, e.distance, e.factor),
        Stage::Section(e) => step_limits::section_row(cs, n, e.target, e.width as u32),
    }
}

// Subscript j of all; its constant stands.
fn change_subscript(
    words: &mut [i16],
    j: usize,
    n: usize,
    m: usize,
    stage: Stage,
) -> Result<(), NumberOutOfRange>
    requires { ChangeIn words.old j 1 n m stage }
    ensures { Changes (stage_of stage) words.old n j 1 words.new (is_ok result) }
{
    let at = j * 8 + 1;
    let cs = nest_rows::row_at(words, at);
    let ds = row_after(cs, n, stage);
    nest_rows::put_row(words, at, m, ds)
}

// As many as `count`, from subscript `first` of all on; left at the first that has a large number.
fn change_subscripts(
    words: &mut [i16],
    first: usize,
    count: usize,
    n: usize,
    m: usize,
    stage: Stage,
) -> Result<(), NumberOutOfRange>
    requires { ChangeIn words.old first count n m stage }
    ensures { Changes (stage_of stage) words.old n first count words.new (is_ok result) }
{
    for d in 0..count {
        change_subscript(words, first + d, n, m, stage)?;
    }
    Ok(())
}

// Every access; where a number is beyond ±32767, the words are of no use afterwards.
pub fn change_accesses(
    words: &mut [i16],
    accessed: &[usize],
    extents: &[usize],
    depth: usize,
    stage: Stage,
) -> Result<(), NumberOutOfRange>
    requires { AccessesIn words.old accessed.now extents.now depth stage }
    ensures { AccessesAfter (stage_of stage) words.old accessed.now extents.now depth words.new (is_ok result) }
{
    let m = step_kinds::depth_after_stage(stage, depth);
    for (k, &array) in accessed.iter().enumerate() {
        let count = extents[array * ARRAY_ROOM];
        change_subscripts(words, k * 3, count, depth, m, stage)?;
    }
    Ok(())
}
