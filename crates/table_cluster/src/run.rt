// A run of places seen as one: is any locked, are all occupied, is it a sound cluster (01, Shape and layout).
ghost use Rattle.std.specs.Prelude.{◌≡◌, ◌+◌, ◌*◌, ◌≤◌, ◌<◌, length};
ghost use Rattle.rules.specs.Lists.{count, all};
ghost use Rattle.rules.specs.Word.{word_of};
ghost use Rattle.rules.specs.Bytes.{words_of};
ghost use Rattle.rules.specs.Table.{between, sound_run, locked};
ghost use Rattle.theory.specs.Dealt.{is_change, is_virgin, is_occupied};
ghost use Rattle.table_cluster.specs.Run as spec;
ghost use Rattle.table_cluster.specs.Check as check;
ghost use Rattle.table_cluster.specs.Check.{check_of, passed};

use crate::gaps::End;
use rules::Refusal;
use table_words::bytes::word_at;
use table_words::place::{Place, right_of};
use table_words::shape::GoodShape;
use table_words::word::{change, is_void, lock, occupied, remainder, virgin, with_change};

#[tactic(auto, using(crate::specs::Run::occupied_laws))]
pub fn all_occupied(table: &[u8], l: Place, r: Place) -> bool
    requires below { l.0 < r.0 }
    requires inside { 2 * r.0 ≤ length table.now }
    ensures { result ≡ all is_occupied (between (words_of table.now) l.0 r.0) }
{
    for i in right_of(l).0..r.0 {
        if !occupied(word_at(table, Place(i))) {
            return false;
        }
    }
    true
}

// Whether the word w may stand after the word v: its remainder is low, and above v's unless v ends its group.
#[tactic(auto, unfolding(crate::specs::Run::follows))]
fn follows(low: u32, v: u16, w: u16) -> bool
    ensures { result ≡ spec.follows low (word_of v) (word_of w) }
{
    let x = remainder(w);
    u32::from(x) < low && (change(v) || remainder(v) < x)
}

// One pass. Before the first place stands, as it were, a word that ends a group.
#[tactic(auto, using(crate::specs::Run::sound_laws))]
pub fn sound_run(sh: GoodShape, table: &[u8], l: Place, r: Place) -> bool
    requires below { l.0 < r.0 }
    requires inside { 2 * r.0 ≤ length table.now }
    ensures { result ≡ sound_run sh.shape (between (words_of table.now) l.0 r.0) }
{
    let low = sh.remainders();
    let mut last = with_change(0, true);
    let mut virgins = 0;
    let mut changes = 0;
    for i in right_of(l).0..r.0 {
        let w = word_at(table, Place(i));
        if !follows(low, last, w) {
            return false;
        }
        virgins += u32::from(virgin(w));
        changes += u32::from(change(w));
        last = w;
    }
    change(last) && virgins == changes
}

// What a pass over a run tells.
#[derive(Clone, Copy, Debug, PartialEq, Eq)]
pub struct Check {
    pub sound: bool,
    pub locked: bool,
}

impl Check {
    // Whether a call may go on: soundness comes before the locks.
    pub fn passes(self) -> Result<(), Refusal>
        ensures { result ≡ passed self }
    {
        if !self.sound {
            Err(Refusal::Unsound)
        } else if self.locked {
            Err(Refusal::Locked)
        } else {
            Ok(())
        }
    }
}

// Whether v ends its group or the remainder of w is above v's.
#[tactic(auto, unfolding(crate::specs::Check::rises))]
fn rises(v: u16, w: u16) -> bool
    ensures { result ≡ check.rises (word_of v) (word_of w) }
{
    change(v) || remainder(v) < remainder(w)
}

// Soundness and locks in one pass, of the run between two ends and of the ends themselves. There is no branch in the
// loop, so that it is made for vector units: the words are laid over one another, and each is held against the next.
#[tactic(auto, using(crate::specs::Check::check_laws))]
pub fn check_run(sh: GoodShape, table: &[u8], l: Place, r: End) -> Check
    requires below { l.0 < r.gap.0 }
    requires inside { 2 * r.gap.0 + 1 < length table.now }
    requires virgins_value { r.virgins ≡ count is_virgin (between (words_of table.now) l.0 r.gap.0) }
    requires changes_value { r.changes ≡ count is_change (between (words_of table.now) l.0 r.gap.0) }
    ensures { result ≡ check_of sh.shape (words_of table.now) l.0 r.gap.0 }
{
    let first = word_at(table, l);
    let last = word_at(table, r.gap);
    let mut up = true;
    let mut over = 0;
    for i in right_of(l).0..r.gap.0 {
        let w = word_at(table, Place(i));
        let next = word_at(table, right_of(Place(i)));
        up &= rises(w, next);
        over |= w;
    }
    let low = u32::from(remainder(over)) < sh.remainders();
    let even = r.virgins == r.changes;
    Check {
        sound: is_void(first) & is_void(last) & up & low & even,
        locked: lock(over) | lock(first) | lock(last),
    }
}
