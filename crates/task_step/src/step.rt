// One step on a record by value (01, Tasks and their steps): refusals 1, 3, 5 and 6 in their order, then the phase.
ghost use Rattle.std.specs.Prelude.{◌≡◌, ◌*◌, length};
ghost use Rattle.rules.specs.Bytes.{words_of};
ghost use Rattle.rules.specs.Shape.{shape_of, places};
ghost use Rattle.rules.specs.Step.{step_of};
ghost use Rattle.task_fits.specs.Phase.{number_of};
ghost use Rattle.task_fits.specs.Taken.{taken};
ghost use Rattle.task_step.specs.Stepping.{guards_good, Acts, acts_by, step_says, left_after, step_one};

use rules::{Refusal, Task};
use table_cluster::guards::guards_void;
use table_words::shape::{GoodShape, good_table};
use task_fits::fits::fits;
use task_fits::phase::Phase;
use task_fits::record::at_rest;
use task_phases::Busy;

// What a step does depends on the phase, and this is the one place that says how.
#[tactic(auto, unfolding(rules::specs::Record::at_rest, rules::specs::Step::of_phase))]
fn act(sh: GoodShape, table: &mut [u8], phase: Phase, t: Task) -> Result<Task, Refusal>
    requires asked { Acts sh.shape table.old t }
    requires its_phase { number_of phase ≡ t.phase }
    ensures { taken result (words_of table.new) ≡ acts_by sh.shape (words_of table.old) t }
{
    match phase {
        Phase::Idle | Phase::Done => Err(Refusal::AtRest),
        Phase::Home => Busy(t).home(sh, table),
        Phase::LookLeft => Busy(t).look_left(sh, table),
        Phase::LookRight => Busy(t).look_right(sh, table),
        Phase::LockLeft => Busy(t).lock_left(sh, table),
        Phase::LockRight => Busy(t).lock_right(sh, table),
        Phase::BackOff => Busy(t).back_off(sh, table),
        Phase::Read => Busy(t).read(sh, table),
        Phase::FillHand => Busy(t).fill_hand(sh, table),
        Phase::Move => Busy(t).move_on(sh, table),
        Phase::Mark => Busy(t).mark(sh, table),
        Phase::FreeLeft => Busy(t).free_left(sh, table),
        Phase::FreeRight => Busy(t).free_right(sh, table),
    }
}

// In phases 1 to 12 both guards must be unoccupied and sound; at rest nothing is asked of them.
fn guards_good(sh: GoodShape, table: &[u8], t: Task) -> bool
    requires size { length table.now ≡ 2 * places sh.shape }
    ensures { result ≡ guards_good sh.shape (words_of table.now) t }
{
    at_rest(t) || guards_void(sh, table)
}

// On a good table: 3 if the record does not fit, 5 at rest, 6 by the guards or the phase.
#[tactic(auto, using(task_fits::specs::Fit::fits_beyond, crate::specs::Stepping::step_unguarded), unfolding(rules::specs::Step::step_of))]
fn step_of(sh: GoodShape, table: &mut [u8], t: Task) -> Result<Task, Refusal>
    requires size { length table.old ≡ 2 * places sh.shape }
    ensures { step_says t result table.new
        ≡ left_after table.old t (step_of sh.shape (words_of table.old) t) }
{
    let Ok(phase) = Phase::try_from(t.phase) else {
        return Err(Refusal::BadTask);
    };
    if !fits(sh, t) {
        return Err(Refusal::BadTask);
    }
    if !guards_good(sh, table, t) {
        return Err(Refusal::Unsound);
    }
    act(sh, table, phase, t)
}

#[tactic(auto, using(table_words::specs::Range::good_table_lem), unfolding(crate::specs::Stepping::step_one))]
pub fn step(m: u32, r: u32, table: &mut [u8], t: Task) -> Result<Task, Refusal>
    ensures { step_says t result table.new ≡ step_one (shape_of m r) table.old t }
{
    let sh = good_table(m, r, table.len())?;
    step_of(sh, table, t)
}
