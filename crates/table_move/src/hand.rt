// A new key's way: filled in at the hand, and carried to its goal. Only remainder and change bit move with it.
ghost use Rattle.std.specs.Prelude.{◌≡◌, ◌+◌, ◌*◌, ◌≤◌, ◌<◌, length};
ghost use Rattle.rules.specs.Bytes.{words_of};
ghost use Rattle.rules.specs.Phase as phase;
ghost use Rattle.theory.specs.Motion as motion;
ghost use Rattle.theory.specs.Motion.{fill_at, moves};
ghost use Rattle.table_words.specs.Sides.{Toward};
ghost use Rattle.table_move.specs.Carry.{shifts};

use table_words::bytes::{set_word, word_at};
use table_words::place::{Place, left_of, right_of};
use table_words::side::{Left, Right, Side};
use table_words::word::{filled_with, with_payload};

#[tactic(auto, unfolding(theory::specs::Motion::fill_at))]
pub fn fill_at(table: &mut [u8], p: Place, x: u16)
    requires fact_1 { 2 * p.0 + 1 < length table.old }
    requires fact_2 { x < 4096 }
    ensures { words_of table.new ≡ fill_at x (words_of table.old) p.0 }
{
    let w = word_at(table, p);
    set_word(table, p, filled_with(x, w));
}

#[tactic(auto, unfolding(rules::specs::Phase::exchange))]
pub fn exchange(table: &mut [u8], p: Place, q: Place)
    requires fact_1 { 2 * p.0 + 1 < length table.old }
    requires fact_2 { 2 * q.0 + 1 < length table.old }
    ensures { words_of table.new ≡ phase.exchange (words_of table.old) p.0 q.0 }
{
    let v = word_at(table, p);
    let w = word_at(table, q);
    set_word(table, p, with_payload(w, v));
    set_word(table, q, with_payload(v, w));
}

// The neighbour of hand towards goal.
#[tactic(auto, unfolding(theory::specs::Motion::toward))]
pub fn toward(hand: Place, goal: Place) -> Place
    requires { hand.0 ≡ goal.0 → ⊥ }
    ensures { result.0 ≡ motion.toward hand.0 goal.0 }
{
    if hand < goal {
        right_of(hand)
    } else {
        left_of(hand)
    }
}

// The payloads of the places on the way from hand to goal, which lies to the side S of it, each one place back. With
// the side known the compiler shifts many words at a time.
fn shift_to<S: Side>(table: &mut [u8], hand: Place, goal: Place)
    requires hand_in_table { 2 * hand.0 + 1 < length table.old }
    requires goal_in_table { 2 * goal.0 + 1 < length table.old }
    requires toward { Toward S.side hand.0 goal.0 }
    ensures { words_of table.new
        ≡ shifts (motion.distance hand.0 goal.0) (words_of table.old) hand.0 goal.0 }
{
    let mut p = hand;
    while S::is_ahead(p, goal) {
        let next = S::beside(p);
        let ahead = word_at(table, next);
        let own = word_at(table, p);
        set_word(table, p, with_payload(ahead, own));
        p = next;
    }
}

// The shift to the side where the goal lies.
fn shift(table: &mut [u8], hand: Place, goal: Place)
    requires { (2 * hand.0 + 1 < length table.old) × (2 * goal.0 + 1 < length table.old) }
    ensures { words_of table.new
        ≡ shifts (motion.distance hand.0 goal.0) (words_of table.old) hand.0 goal.0 }
{
    if hand < goal {
        shift_to::<Right>(table, hand, goal);
    } else {
        shift_to::<Left>(table, hand, goal);
    }
}

// The moves to the goal, with the payload held back until the end: the places that the hand passes only shift.
#[tactic(auto, using(crate::specs::Carry::moves_shift))]
pub fn carry(table: &mut [u8], hand: Place, goal: Place)
    requires fact_1 { 2 * hand.0 + 1 < length table.old }
    requires fact_2 { 2 * goal.0 + 1 < length table.old }
    ensures { words_of table.new
        ≡ moves (motion.distance hand.0 goal.0) (words_of table.old) hand.0 goal.0 }
{
    let held = word_at(table, hand);
    shift(table, hand, goal);
    let own = word_at(table, goal);
    set_word(table, goal, with_payload(held, own));
}
