// Phase 7: a busy task that holds both locks reads the keys between them. It writes no word.
ghost use Rattle.std.specs.Prelude.{◌≡◌, ◌+◌, ◌<◌};
ghost use Rattle.rules.specs.Bytes.{words_of};
ghost use Rattle.rules.specs.Phase as phase;
ghost use Rattle.task_phases.specs.Reading.{after_read};
ghost use Rattle.table_read.specs.Mark.{number};
ghost use Rattle.task_fits.specs.declared.phase.Phase.TheVariants as in_phase;
ghost use Rattle.task_fits.specs.Ready.{Ready};
ghost use Rattle.task_fits.specs.Taken.{Follows};

use crate::Busy;
use crate::answer::Answer;
use crate::record::answered;
use rules::{Refusal, Task};
use table_cluster::gaps::left_end;
use table_cluster::run::{all_occupied, sound_run};
use table_read::mark::Mark;
use table_read::read::{Read, group_start, read_from};
use table_words::bytes::word_at;
use table_words::key::{home_place, remainder_of};
use table_words::place::Place;
use table_words::shape::GoodShape;
use table_words::word::is_lock;
use task_fits::phase::Phase;

#[tactic(auto, unfolding(rules::specs::Phase::readable))]
fn readable(sh: GoodShape, table: &[u8], t: Task) -> bool
    requires { Ready in_phase.Read sh.shape table.now t }
    ensures { result ≡ phase.readable sh.shape (words_of table.now) t }
{
    let left = Place(t.left);
    let right = Place(t.right);
    is_lock(word_at(table, left))
        && is_lock(word_at(table, right))
        && all_occupied(table, left, right)
        && sound_run(sh, table, left, right)
}

// The record that goes on to fill: its hand, its goal and its mark.
fn aimed(t: Task, hand: u32, goal: u32, mark: Mark) -> Task
    ensures { result ≡ phase.aimed hand goal (number mark) t }
{
    Task {
        phase: Phase::FillHand.into(),
        hand,
        goal,
        mark: mark.into(),
        ..t
    }
}

// The record that follows: the key is there, or the end that is filled and the goal, or there is no room.
#[tactic(auto, unfolding(crate::specs::Reading::after_read, rules::specs::Room::which_end))]
fn after_read(sh: GoodShape, t: Task, read: Read) -> Task
    requires goal_small { t.left + read.smaller < 4294967295 }
    ensures { result ≡ after_read sh.shape t read }
{
    if read.held {
        return answered(t, Answer::Found);
    }
    if t.left != 0 {
        return aimed(t, t.left, t.left + read.smaller, read.mark);
    }
    if t.right != sh.right_guard().0 {
        return aimed(t, t.right, read.smaller + 1, read.mark);
    }
    answered(t, Answer::Full)
}

impl Busy {
    #[tactic(auto, unfolding(rules::specs::Phase::read))]
    pub fn read(self, sh: GoodShape, table: &[u8]) -> Result<Task, Refusal>
        requires { Ready in_phase.Read sh.shape table.now self.0 }
        ensures { Follows phase.read sh.shape self.0 table.now result table.now }
    {
        let t = self.0;
        if !readable(sh, table, t) {
            return Ok(answered(t, Answer::Unsound));
        }
        let h = home_place(sh, t.key);
        let l = left_end(table, h);
        let p = group_start(table, l, h);
        let read = read_from(table, l.gap, p, h, remainder_of(sh, t.key));
        Ok(after_read(sh, t, read))
    }
}
