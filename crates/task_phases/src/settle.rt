// Phases 8 to 12: a busy task that holds both locks fills its key in, moves it to its goal, marks it, frees the ends.
ghost use Rattle.rules.specs.Phase as phase;
ghost use Rattle.task_fits.specs.declared.phase.Phase.TheVariants.{FillHand, Move, Mark, FreeLeft, FreeRight};
ghost use Rattle.task_fits.specs.Ready.{Ready};
ghost use Rattle.task_fits.specs.Taken.{Follows};

use crate::Busy;
use crate::answer::Answer;
use crate::record::{answered, moves_on, to_phase};
use rules::{Refusal, Task};
use table_move::hand::{exchange, fill_at, toward};
use table_move::marks;
use table_words::bytes::word_at;
use table_words::key::{home_place, remainder_of};
use table_words::place::Place;
use table_words::shape::GoodShape;
use table_words::word::{is_lock, occupied};
use task_fits::lock::set_lock;
use task_fits::phase::Phase;

impl Busy {
    #[tactic(auto, unfolding(rules::specs::Phase::fill_hand, rules::specs::Entry::split, theory::specs::Motion::fill_at))]
    pub fn fill_hand(self, sh: GoodShape, table: &mut [u8]) -> Result<Task, Refusal>
        requires { Ready FillHand sh.shape table.old self.0 }
        ensures { Follows phase.fill_hand sh.shape self.0 table.old result table.new }
    {
        let t = self.0;
        let hand = Place(t.hand);
        if is_lock(word_at(table, hand)) {
            fill_at(table, hand, remainder_of(sh, t.key));
            return Ok(moves_on(t));
        }
        Err(Refusal::Unsound)
    }

    pub fn move_on(self, sh: GoodShape, table: &mut [u8]) -> Result<Task, Refusal>
        requires { Ready Move sh.shape table.old self.0 }
        ensures { Follows phase.move sh.shape self.0 table.old result table.new }
    {
        let t = self.0;
        let hand = Place(t.hand);
        let next = toward(hand, Place(t.goal));
        if occupied(word_at(table, next)) {
            exchange(table, hand, next);
            return Ok(moves_on(Task { hand: next.0, ..t }));
        }
        Err(Refusal::Unsound)
    }

    #[tactic(auto, unfolding(rules::specs::Phase::mark, rules::specs::Record::home_place_of))]
    pub fn mark(self, sh: GoodShape, table: &mut [u8]) -> Result<Task, Refusal>
        requires { Ready Mark sh.shape table.old self.0 }
        ensures { Follows phase.mark sh.shape self.0 table.old result table.new }
    {
        let t = self.0;
        marks::mark(table, t.mark, Place(t.goal), home_place(sh, t.key));
        Ok(answered(t, Answer::Inserted))
    }

    #[tactic(auto, unfolding(rules::specs::Phase::free_left))]
    pub fn free_left(self, sh: GoodShape, table: &mut [u8]) -> Result<Task, Refusal>
        requires { Ready FreeLeft sh.shape table.old self.0 }
        ensures { Follows phase.free_left sh.shape self.0 table.old result table.new }
    {
        let t = self.0;
        set_lock(table, Place(t.left), false);
        Ok(to_phase(t, Phase::FreeRight))
    }

    #[tactic(auto, unfolding(rules::specs::Phase::free_right))]
    pub fn free_right(self, sh: GoodShape, table: &mut [u8]) -> Result<Task, Refusal>
        requires { Ready FreeRight sh.shape table.old self.0 }
        ensures { Follows phase.free_right sh.shape self.0 table.old result table.new }
    {
        let t = self.0;
        set_lock(table, Place(t.right), false);
        Ok(to_phase(t, Phase::Done))
    }
}
