// Give on a record by value (01, Tasks and their steps): refusals 1, 2 and 4. The thin call over lent records adds 3.
ghost use Rattle.std.specs.Prelude.{◌≡◌};
ghost use Rattle.rules.specs.Shape.{shape_of};
ghost use Rattle.rules.specs.Give as spec;
ghost use Rattle.rules.specs.Give.{give_to};
ghost use Rattle.task_step.specs.Given.{give_one};
ghost use Rattle.rules.specs.Answer.{turn_says};

use rules::{Refusal, Task};
use table_words::shape::good_shape;
use task_fits::phase::Phase;
use task_fits::record::no_task;

#[tactic(auto, unfolding(rules::specs::Give::given))]
fn given(key: u32) -> Task
    ensures { result ≡ spec.given key }
{
    Task {
        key,
        phase: Phase::Home.into(),
        ..no_task()
    }
}

#[tactic(auto, unfolding(rules::specs::Give::give_to, rules::specs::Record::busy))]
fn give_to(t: Task, key: u32) -> Result<Task, Refusal>
    ensures { turn_says t result ≡ give_to t key }
{
    match Phase::try_from(t.phase) {
        Ok(Phase::Idle | Phase::Done) | Err(_) => Ok(given(key)),
        Ok(_) => Err(Refusal::Busy),
    }
}

#[tactic(auto, using(table_words::specs::Range::in_range_lem), unfolding(crate::specs::Given::give_one))]
pub fn give(m: u32, r: u32, key: u32, t: Task) -> Result<Task, Refusal>
    ensures { turn_says t result ≡ give_one (shape_of m r) key t }
{
    let sh = good_shape(m, r)?;
    if !sh.has_key(key) {
        return Err(Refusal::BadKey);
    }
    give_to(t, key)
}
