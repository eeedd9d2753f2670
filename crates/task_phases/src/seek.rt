// Phases 1 to 6: a busy task looks for the ends of its home's cluster and locks both, or fills an empty home.
ghost use Rattle.rules.specs.Phase as phase;
ghost use Rattle.task_fits.specs.declared.phase.Phase.TheVariants.{Home, LookLeft, LookRight, LockLeft, LockRight, BackOff};
ghost use Rattle.task_fits.specs.Ready.{Ready};
ghost use Rattle.task_fits.specs.Taken.{Follows};

use crate::Busy;
use crate::answer::Answer;
use crate::record::{again, to_phase};
use rules::{Refusal, Task};
use table_words::bytes::{set_word, word_at};
use table_words::key::{home_place, remainder_of};
use table_words::place::{Place, left_of, right_of};
use table_words::shape::GoodShape;
use table_words::word::{alone_word, is_zero, lock, occupied};
use task_fits::lock::set_lock;
use task_fits::phase::Phase;

impl Busy {
    #[tactic(auto, unfolding(rules::specs::Phase::home, rules::specs::Record::home_place_of, rules::specs::Entry::split))]
    pub fn home(self, sh: GoodShape, table: &mut [u8]) -> Result<Task, Refusal>
        requires { Ready Home sh.shape table.old self.0 }
        ensures { Follows phase.home sh.shape self.0 table.old result table.new }
    {
        let t = self.0;
        let h = home_place(sh, t.key);
        let w = word_at(table, h);
        // It begins again, and is there already.
        if lock(w) {
            return Ok(t);
        }
        if is_zero(w) {
            let alone = alone_word(remainder_of(sh, t.key));
            set_word(table, h, alone);
            return Ok(Task {
                phase: Phase::Done.into(),
                answer: Answer::Inserted.into(),
                ..t
            });
        }
        if occupied(w) {
            return Ok(Task {
                phase: Phase::LookLeft.into(),
                left: left_of(h).0,
                ..t
            });
        }
        Err(Refusal::Unsound)
    }

    #[tactic(auto, unfolding(rules::specs::Phase::look_left, rules::specs::Record::home_place_of))]
    pub fn look_left(self, sh: GoodShape, table: &[u8]) -> Result<Task, Refusal>
        requires { Ready LookLeft sh.shape table.now self.0 }
        ensures { Follows phase.look_left sh.shape self.0 table.now result table.now }
    {
        let t = self.0;
        let left = Place(t.left);
        if occupied(word_at(table, left)) {
            return Ok(Task {
                left: left_of(left).0,
                ..t
            });
        }
        let h = home_place(sh, t.key);
        Ok(Task {
            phase: Phase::LookRight.into(),
            right: right_of(h).0,
            ..t
        })
    }

    #[tactic(auto, unfolding(rules::specs::Phase::look_right))]
    pub fn look_right(self, sh: GoodShape, table: &[u8]) -> Result<Task, Refusal>
        requires { Ready LookRight sh.shape table.now self.0 }
        ensures { Follows phase.look_right sh.shape self.0 table.now result table.now }
    {
        let t = self.0;
        let right = Place(t.right);
        if occupied(word_at(table, right)) {
            return Ok(Task {
                right: right_of(right).0,
                ..t
            });
        }
        Ok(to_phase(t, Phase::LockLeft))
    }

    #[tactic(auto, unfolding(rules::specs::Phase::lock_left))]
    pub fn lock_left(self, sh: GoodShape, table: &mut [u8]) -> Result<Task, Refusal>
        requires { Ready LockLeft sh.shape table.old self.0 }
        ensures { Follows phase.lock_left sh.shape self.0 table.old result table.new }
    {
        let t = self.0;
        let left = Place(t.left);
        if is_zero(word_at(table, left)) {
            set_lock(table, left, true);
            return Ok(to_phase(t, Phase::LockRight));
        }
        Ok(again(t))
    }

    #[tactic(auto, unfolding(rules::specs::Phase::lock_right))]
    pub fn lock_right(self, sh: GoodShape, table: &mut [u8]) -> Result<Task, Refusal>
        requires { Ready LockRight sh.shape table.old self.0 }
        ensures { Follows phase.lock_right sh.shape self.0 table.old result table.new }
    {
        let t = self.0;
        let right = Place(t.right);
        if is_zero(word_at(table, right)) {
            set_lock(table, right, true);
            return Ok(to_phase(t, Phase::Read));
        }
        Ok(to_phase(t, Phase::BackOff))
    }

    #[tactic(auto, unfolding(rules::specs::Phase::back_off))]
    pub fn back_off(self, sh: GoodShape, table: &mut [u8]) -> Result<Task, Refusal>
        requires { Ready BackOff sh.shape table.old self.0 }
        ensures { Follows phase.back_off sh.shape self.0 table.old result table.new }
    {
        let t = self.0;
        set_lock(table, Place(t.left), false);
        Ok(again(t))
    }
}
