// A key added to a table (01, Where a new key goes): at its empty home, or in the cluster of its home, found there or
// put beside it. Put and build share it; neither soundness nor locks are asked here.
ghost use Rattle.std.specs.Prelude.{◌≡◌, true, ◌+◌, ◌*◌, ◌<◌, length, set};
ghost use Rattle.rules.specs.Bytes.{words_of};
ghost use Rattle.rules.specs.Shape.{places};
ghost use Rattle.rules.specs.Table.{at};
ghost use Rattle.rules.specs.Word.{alone_word};
ghost use Rattle.rules.specs.Answer.{leaves, put_says};
ghost use Rattle.rules.specs.Put.{put_in};
ghost use Rattle.rules.specs.declared.PutAnswer.TheVariants.{Inserted};
ghost use Rattle.theory.specs.Motion.{fill_at, finish};
ghost use Rattle.table_read.specs.Mark.{number};
ghost use Rattle.table_read.specs.Read.{entry};
ghost use Rattle.table_cluster.specs.Ends.{left_end};
ghost use Rattle.table_find.specs.Around.{Open};
ghost use Rattle.table_put.specs.Putting.{words_left, add_beside, Insertable};

use rules::{PutAnswer, Refusal};
use table_cluster::gaps::{End, left_end, right_gap};
use table_move::hand::{carry, fill_at};
use table_move::marks;
use table_read::mark::Mark;
use table_read::read::{Read, group_start, read_from};
use table_words::bytes::{set_word, word_at};
use table_words::key::Parts;
use table_words::place::{Place, right_by, right_of};
use table_words::shape::left_guard;
use table_words::word::{alone_word, occupied};

// An empty home gets the key's one word.
pub fn put_alone(table: &mut [u8], k: Parts)
    requires home_inside { 2 * k.home.0 + 1 < length table.old }
    ensures { words_of table.new ≡ set (words_of table.old) k.home.0 (alone_word k.remainder) }
{
    set_word(table, k.home, alone_word(k.remainder));
}

// A key filled in at the hand, brought to its goal and marked there.
#[tactic(auto, using(crate::specs::Putting::remainder_small), unfolding(theory::specs::Motion::finish))]
fn bring(table: &mut [u8], k: Parts, hand: Place, goal: Place, mark: Mark) -> PutAnswer
    requires hand_inside { 2 * hand.0 + 1 < length table.old }
    requires goal_inside { 2 * goal.0 + 1 < length table.old }
    requires home_inside { 2 * k.home.0 + 1 < length table.old }
    requires goal_low { 0 < goal.0 }
    ensures answer { result ≡ Inserted }
    ensures words { words_of table.new
        ≡ finish (fill_at k.remainder (words_of table.old) hand.0) hand.0 goal.0 (number mark) k.home.0 }
{
    fill_at(table, hand, k.remainder);
    carry(table, hand, goal);
    marks::mark(table, u8::from(mark), goal, k.home);
    PutAnswer::Inserted
}

// The first empty place to the left is filled; if that is the left guard, the one to the right; if that is a guard
// too, the table is full.
fn add_beside(table: &mut [u8], k: Parts, gap: Place, read: Read) -> Result<PutAnswer, Refusal>
    requires size { length table.old ≡ 2 * places k.sh.shape }
    requires ready { Insertable k.sh.shape (words_of table.old) (entry k.home.0 k.remainder) gap read }
    ensures { leaves (put_says result) (words_of table.new)
        ≡ words_left
        (words_of table.old)
        (add_beside k.sh.shape (words_of table.old) (entry k.home.0 k.remainder)) }
{
    if gap != left_guard() {
        let goal = right_by(gap, read.smaller);
        return Ok(bring(table, k, gap, goal, read.mark));
    }
    let r = right_gap(table, k.home);
    if r == k.sh.right_guard() {
        return Err(Refusal::Full);
    }
    let goal = right_by(right_of(gap), read.smaller);
    Ok(bring(table, k, r, goal, read.mark))
}

// The key is found in the cluster of its home, or added beside it.
pub fn put_beside(table: &mut [u8], k: Parts, l: End) -> Result<PutAnswer, Refusal>
    requires size { length table.old ≡ 2 * places k.sh.shape }
    requires open { Open k.sh.shape (words_of table.old) k.home.0 }
    requires full { (at (words_of table.old) k.home.0).occupied ≡ true }
    requires left { l ≡ left_end (words_of table.old) k.home.0 }
    ensures { leaves (put_says result) (words_of table.new)
        ≡ words_left
        (words_of table.old)
        (put_in k.sh.shape (words_of table.old) (entry k.home.0 k.remainder)) }
{
    let p = group_start(table, l, k.home);
    let read = read_from(table, l.gap, p, k.home, k.remainder);
    if read.held {
        Ok(PutAnswer::Found)
    } else {
        add_beside(table, k, l.gap, read)
    }
}

// Where the surroundings of the home are known to be sound and unlocked.
#[tactic(auto, using(table_find::specs::Around::home_inside, table_find::specs::Around::open_guards, table_find::specs::Around::left_open))]
pub fn put_open(table: &mut [u8], k: Parts) -> Result<PutAnswer, Refusal>
    requires size { length table.old ≡ 2 * places k.sh.shape }
    requires open { Open k.sh.shape (words_of table.old) k.home.0 }
    ensures { leaves (put_says result) (words_of table.new)
        ≡ words_left
        (words_of table.old)
        (put_in k.sh.shape (words_of table.old) (entry k.home.0 k.remainder)) }
{
    if occupied(word_at(table, k.home)) {
        let l = left_end(table, k.home);
        put_beside(table, k, l)
    } else {
        put_alone(table, k);
        Ok(PutAnswer::Inserted)
    }
}
