// One task's turn (01, The frame program): idle or done it takes the line's next key if there is one, else it makes a
// step; when it is done, its key is answered.
ghost use Rattle.std.specs.Prelude.{◌≡◌, ◌<◌, length, get_or};
ghost use Rattle.rules.specs.Answer.{turn_says};
ghost use Rattle.frame_rules.specs.Lines.{keys_of};
ghost use Rattle.frame_rounds.specs.Sitting.{left_task, sat, answered, take_next, make_step, turn_one};

use frame_digits::read::Digits;
use frame_rules::First;
use rules::{Refusal, Task};
use task_fits::phase::Phase;
use task_fits::record::at_rest;
use task_step::give::give;
use task_step::step::step;

// A task, which of the line's keys it holds (by number, from 0), and how many keys are taken.
#[derive(Clone, Copy)]
pub struct Sitting {
    pub task: Task,
    pub serving: usize,
    pub taken: usize,
}

// The record that follows, or the same where the call was refused.
fn kept(t: Task, x: Result<Task, Refusal>) -> Task
    ensures { result ≡ left_task (turn_says t x) }
{
    x.unwrap_or(t)
}

// The key with a number in the line.
#[tactic(auto, using(frame_pieces::specs::Limits::keys_count, crate::specs::Keys::key_is))]
pub fn key_at(line: Digits, i: usize) -> u32
    requires { i < length (keys_of line.text.now) }
    ensures { result ≡ get_or (keys_of line.entry.text.now) i 0 }
{
    line.number(8 * i, 8)
}

// A task at rest takes the next key, if there is one.
#[tactic(auto, using(frame_pieces::specs::Limits::keys_count), unfolding(crate::specs::Sitting::take_next))]
fn take_next(f: First, line: Digits, s: Sitting) -> Sitting
    ensures { result ≡ take_next f (keys_of line.entry.text.now) s }
{
    let i = s.taken;
    if i < line.text.len() / 8 {
        let key = key_at(line, i);
        Sitting {
            task: kept(s.task, give(f.shape.m, f.shape.r, key, s.task)),
            serving: i,
            taken: i + 1,
        }
    } else {
        s
    }
}

// The answer of a done task, in the slot of the key that it holds.
#[tactic(auto, using(crate::specs::Sitting::answer_lost), unfolding(crate::specs::Sitting::answered))]
fn answer_if(answers: &mut [u8], i: usize, t: Task)
    ensures { answers.new ≡ answered answers.old i t }
{
    if t.phase == Phase::Done.into() && i < answers.len() {
        answers[i] = t.answer;
    }
}

// A step; a task that is then done has answered its key.
#[tactic(auto, using(crate::specs::Sitting::after_says), unfolding(crate::specs::Sitting::make_step))]
fn make_step(f: First, table: &mut [u8], answers: &mut [u8], s: Sitting) -> Sitting
    ensures { sat table.new answers.new result
        ≡ make_step f table.old answers.old s }
{
    let task = kept(s.task, step(f.shape.m, f.shape.r, table, s.task));
    answer_if(answers, s.serving, task);
    Sitting { task, ..s }
}

#[tactic(auto, unfolding(crate::specs::Sitting::turn_one))]
pub fn turn(f: First, table: &mut [u8], line: Digits, answers: &mut [u8], s: Sitting) -> Sitting
    ensures { sat table.new answers.new result
        ≡ turn_one f (keys_of line.entry.text.now) table.old answers.old s }
{
    if at_rest(s.task) {
        take_next(f, line, s)
    } else {
        make_step(f, table, answers, s)
    }
}
