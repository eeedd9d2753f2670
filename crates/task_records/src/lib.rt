// Give and step over lent records (01, Tasks and their steps): one record is read, handed by value to the crate
// `task_step`, and stored back. Sixteen records by value, lent for a call, for callers that have no slice of them.
#![tactic(auto)]

ghost use Rattle.std.specs.Prelude.{◌≡◌};
ghost use Rattle.rules.specs.Shape.{shape_of};
ghost use Rattle.rules.specs.Answer.{refuses, number_of_refusal, done_says, leaves};
ghost use Rattle.rules.specs.Give as giving;
ghost use Rattle.rules.specs.Step as stepping;
ghost use Rattle.task_records.specs.Calls.{give_none, step_none, give_all, step_all};

use rules::{Refusal, Task};
use table_words::shape::{good_shape, good_table};
use task_step::give::give as give_one;
use task_step::step::step as step_one;

// How a give is refused where no record has the task number: 1 and 2 come before 3.
#[tactic(auto, using(table_words::specs::Range::in_range_lem), unfolding(crate::specs::Calls::give_none))]
fn give_none(m: u32, r: u32, key: u32) -> Refusal
    ensures { refuses (number_of_refusal result) ≡ give_none (shape_of m r) key }
{
    match good_shape(m, r) {
        Ok(sh) if sh.has_key(key) => Refusal::BadTask,
        Ok(_) => Refusal::BadKey,
        Err(n) => n,
    }
}

// Gives a key to a task (01, Tasks and their steps).
#[tactic(auto, using(crate::specs::Calls::give_stores, crate::specs::Calls::give_keeps, crate::specs::Calls::give_bad), unfolding(rules::specs::Record::good_task))]
pub fn give(m: u32, r: u32, key: u32, tasks: &mut [Task], i: usize) -> Result<(), Refusal>
    ensures { leaves (done_says result) tasks.new ≡ giving.give (shape_of m r) key tasks.old i }
{
    let n = tasks.len();
    if n > 16 || i >= n {
        return Err(give_none(m, r, key));
    }
    tasks[i] = give_one(m, r, key, tasks[i])?;
    Ok(())
}

// How a step is refused where no record has the task number: 1 comes before 3.
#[tactic(auto, unfolding(crate::specs::Calls::step_none))]
fn step_none(m: u32, r: u32, len: usize) -> Refusal
    ensures { refuses (number_of_refusal result) ≡ step_none (shape_of m r) len }
{
    match good_table(m, r, len) {
        Ok(_) => Refusal::BadTask,
        Err(n) => n,
    }
}

// One step of a task (01, Tasks and their steps).
#[tactic(auto, using(crate::specs::Calls::step_stores, crate::specs::Calls::step_keeps, crate::specs::Calls::step_bad), unfolding(rules::specs::Record::good_task))]
pub fn step(m: u32, r: u32, table: &mut [u8], tasks: &mut [Task], i: usize) -> Result<(), Refusal>
    ensures { leaves (done_says result) (record { table = table.new; tasks = tasks.new })
        ≡ stepping.step (shape_of m r) table.old tasks.old i }
{
    let n = tasks.len();
    if n > 16 || i >= n {
        return Err(step_none(m, r, table.len()));
    }
    tasks[i] = step_one(m, r, table, tasks[i])?;
    Ok(())
}

// The sixteen records of a caller that keeps them by value, beside an answer.
#[derive(Clone, Copy)]
pub struct Kept {
    pub tasks: [Task; 16],
    pub done: Result<(), Refusal>,
}

// Give on the first n of them, which are lent for the call. A caller of it has no slice of records.
#[tactic(auto, using(crate::specs::Calls::give_few, crate::specs::Calls::give_many))]
pub fn give_all(m: u32, r: u32, key: u32, mut tasks: [Task; 16], n: usize, i: usize) -> Kept
    ensures { leaves (done_says result.done) result.tasks ≡ give_all (shape_of m r) key tasks n i }
{
    if n > 16 {
        return Kept {
            tasks,
            done: Err(give_none(m, r, key)),
        };
    }
    let done = give(m, r, key, &mut tasks[..n], i);
    Kept { tasks, done }
}

// Step likewise.
#[tactic(auto, using(crate::specs::Calls::step_few, crate::specs::Calls::step_many))]
pub fn step_all(m: u32, r: u32, table: &mut [u8], mut tasks: [Task; 16], n: usize, i: usize) -> Kept
    ensures { leaves (done_says result.done) (record { table = table.new; tasks = result.tasks })
        ≡ step_all (shape_of m r) table.old tasks n i }
{
    if n > 16 {
        return Kept {
            tasks,
            done: Err(step_none(m, r, table.len())),
        };
    }
    let done = step(m, r, table, &mut tasks[..n], i);
    Kept { tasks, done }
}
