// Rounds (01, The frame program): every task has its turn, from task 0 up, until all the line's keys are answered or
// the limit of rounds is met.
ghost use Rattle.std.specs.Prelude.{◌≡◌};
ghost use Rattle.rules.specs.Lists.{all};
ghost use Rattle.rules.specs.Record.{at_rest};
ghost use Rattle.frame_rules.specs.Lines.{keys_of};
ghost use Rattle.frame_rules.specs.Rounds.{round as spec_round, rounds as spec_rounds};
ghost use Rattle.frame_rounds.specs.Desk.{tasks_of, floor_of, answered_at};

use crate::first::Seated;
use crate::turn::{Sitting, turn};
use frame_digits::read::Digits;
use rules::Task;
use task_fits::record::at_rest;

// A task and the key that it holds.
#[derive(Clone, Copy)]
pub struct Seat {
    pub task: Task,
    pub serving: usize,
}

// Seats for sixteen tasks, and how many keys are taken.
#[derive(Clone, Copy)]
pub struct Desk {
    pub seats: [Seat; 16],
    pub taken: usize,
}

// One round of the tasks.
#[tactic(auto, using(crate::specs::Desk::turning_begins, crate::specs::Desk::turning_ends))]
fn round(f: Seated, table: &mut [u8], line: Digits, answers: &mut [u8], desk: &mut Desk)
    ensures { floor_of f.first.tasks table.new answers.new desk.new
        ≡ spec_round f.first (keys_of line.entry.text.now) (floor_of f.first.tasks table.old answers.old desk.old) }
{
    for i in 0..f.first.tasks as usize {
        let Seat { task, serving } = desk.seats[i];
        let taken = desk.taken;
        let s = turn(
            f.first,
            table,
            line,
            answers,
            Sitting {
                task,
                serving,
                taken,
            },
        );
        desk.seats[i] = Seat {
            task: s.task,
            serving: s.serving,
        };
        desk.taken = s.taken;
    }
}

// Whether all tasks are idle or done.
fn all_at_rest(seats: &[Seat]) -> bool
    ensures { result ≡ all at_rest (tasks_of seats.now) }
{
    seats.iter().all(|seat| at_rest(seat.task))
}

// Whether all of the line's keys are answered.
#[tactic(auto, using(crate::specs::Desk::answered_rest, crate::specs::Desk::answered_not))]
pub fn all_answered(f: Seated, line: &[u8], desk: Desk) -> bool
    ensures { result ≡ answered_at f.first.tasks (keys_of line.now) desk }
{
    desk.taken == line.len() / 8 && all_at_rest(&desk.seats[..f.first.tasks as usize])
}

// Rounds until all the line's keys are answered, `limit` at most.
#[tactic(auto, using(crate::specs::Desk::playing_begins, crate::specs::Desk::playing_ends, crate::specs::Desk::playing_stops))]
pub fn rounds(
    f: Seated,
    limit: u64,
    table: &mut [u8],
    line: Digits,
    answers: &mut [u8],
    mut desk: Desk,
) -> Desk
    ensures { floor_of f.first.tasks table.new answers.new result
        ≡ spec_rounds f.first (keys_of line.entry.text.now) limit
        (floor_of f.first.tasks table.old answers.old desk) }
{
    for gone in 0..limit {
        if all_answered(f, line.text, desk) {
            return desk;
        }
        round(f, table, line, answers, &mut desk);
    }
    desk
}
