// Whether a call on a run can be carried out (the order of the paper's numbers): 1 by shape and table, 3 by the tasks,
// 9 where a line or what is printed could not be held.
ghost use Rattle.std.specs.Prelude.{◌≡◌};
ghost use Rattle.rules.specs.Answer.{done_says};
ghost use Rattle.frame_buffers.specs.Check.{refusal_at, refusal_by};

use frame_first::first::{shape_in_limits, tasks_in_limits};
use frame_rules::{Run, Stage};
use rules::Refusal;

// Among frames, the shape and the number of tasks are within the first line's limits.
fn check_stage(stage: Stage) -> Result<(), Refusal>
    ensures { (done_says result).number ≡ refusal_at stage }
{
    match stage {
        Stage::Among(f) if !shape_in_limits(f.shape) => Err(Refusal::BadShape),
        Stage::Among(f) if !tasks_in_limits(f.tasks) => Err(Refusal::BadTask),
        _ => Ok(()),
    }
}

// The lengths are those of the line's buffer, the table and the output.
#[tactic(auto, unfolding(crate::specs::Check::refusal_by))]
pub fn check(run: Run, line: usize, table: usize, out: usize) -> Result<(), Refusal>
    ensures { (done_says result).number ≡ refusal_by run line table out }
{
    if table != 32772 {
        return Err(Refusal::BadShape);
    }
    check_stage(run.stage)?;
    if line < 4096 || out < 66570 {
        return Err(Refusal::TooFewSlots);
    }
    Ok(())
}
