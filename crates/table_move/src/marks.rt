// The mark of a key that has reached its goal (01, phase 10).
ghost use Rattle.std.specs.Prelude.{◌≡◌, ◌+◌, ◌*◌, ◌<◌, length};
ghost use Rattle.rules.specs.Bytes.{words_of};
ghost use Rattle.rules.specs.Phase.{set_change, set_virgin, marked};

use table_words::bytes::{set_word, word_at};
use table_words::place::{Place, left_of};
use table_words::word::{with_change, with_virgin};

#[tactic(auto, unfolding(rules::specs::Phase::set_change))]
fn set_change(table: &mut [u8], p: Place, b: bool)
    requires { 2 * p.0 + 1 < length table.old }
    ensures { words_of table.new ≡ set_change (words_of table.old) p.0 b }
{
    let w = word_at(table, p);
    set_word(table, p, with_change(w, b));
}

#[tactic(auto, unfolding(rules::specs::Phase::set_virgin))]
fn set_virgin(table: &mut [u8], p: Place)
    requires { 2 * p.0 + 1 < length table.old }
    ensures { words_of table.new ≡ set_virgin (words_of table.old) p.0 }
{
    let w = word_at(table, p);
    set_word(table, p, with_virgin(w));
}

// 2: a new group, ended at goal and with its home marked; 1: a group's new last key; else nothing.
#[tactic(auto, unfolding(rules::specs::Phase::marked))]
pub fn mark(table: &mut [u8], mark: u8, goal: Place, h: Place)
    requires fact_1 { 2 * goal.0 + 1 < length table.old }
    requires fact_2 { 2 * h.0 + 1 < length table.old }
    requires fact_3 { (mark ≡ 1 → 0 < goal.0) }
    ensures { words_of table.new ≡ marked (words_of table.old) mark goal.0 h.0 }
{
    match mark {
        2 => {
            set_change(table, goal, true);
            set_virgin(table, h);
        }
        1 => {
            set_change(table, goal, true);
            set_change(table, left_of(goal), false);
        }
        _ => {}
    }
}
