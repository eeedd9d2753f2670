// The whole table checked in two passes (01, Shape and layout), each without a branch in its loop: the first holds each
// word against the next and is made for vector units, the second counts homes, groups and keys from gap to gap.
ghost use Rattle.std.specs.Prelude.{◌≡◌};
ghost use Rattle.rules.specs.Word.{word_of};
ghost use Rattle.rules.specs.Bytes.{words_of};
ghost use Rattle.table_list.specs.Check as spec;

use table_cluster::guards::guards_void;
use table_words::bit::bit_of;
use table_words::place::{Place, left_of};
use table_words::table::Table;
use table_words::word::{change, is_void, lock, occupied, remainder, virgin};

// What the first pass tells: is each word in order with the next one, is any locked.
#[derive(Clone, Copy, Debug, PartialEq, Eq)]
struct Order {
    tidy: bool,
    locked: bool,
}

// What the second pass tells: are there as many homes as groups at each gap, and how many keys are there.
#[derive(Clone, Copy, Debug, PartialEq, Eq)]
struct Gaps {
    even: bool,
    keys: u32,
}

// Is the table sound, is a place locked, how many places are occupied.
#[derive(Clone, Copy, Debug, PartialEq, Eq)]
pub struct Check {
    pub sound: bool,
    pub locked: bool,
    pub keys: u32,
}

// Whether the word v may stand before the word w.
fn stands(v: u16, w: u16) -> bool
    ensures { result ≡ spec.stands (word_of v) (word_of w) }
{
    (occupied(v) & (change(v) | (remainder(v) < remainder(w)))) | is_void(v)
}

// The words are laid over one another, for their remainders and locks.
fn check_order(t: Table) -> Order
    ensures { result ≡ spec.order_of t.entry.sh.shape (words_of t.entry.bytes.now) }
{
    let mut up = true;
    let mut over: u16 = 0;
    for i in 1..t.sh.places() {
        let v = t.word(left_of(Place(i)));
        let w = t.word(Place(i));
        up &= stands(v, w);
        over |= v;
    }
    let last = t.word(t.sh.right_guard());
    let all = over | last;
    let low = (remainder(all) as u32) < t.sh.remainders();
    Order {
        tidy: up & is_void(last) & low,
        locked: lock(all),
    }
}

fn check_gaps(t: Table) -> Gaps
    ensures { result ≡ spec.gaps_of (words_of t.entry.bytes.now) }
{
    let mut even = true;
    let mut virgins: u32 = 0;
    let mut changes: u32 = 0;
    let mut keys: u32 = 0;
    for i in 0..t.sh.places() {
        let w = t.word(Place(i));
        virgins += bit_of(virgin(w));
        changes += bit_of(change(w));
        keys += bit_of(occupied(w));
        even &= occupied(w) | (virgins == changes);
    }
    Gaps { even, keys }
}

// Each field is right for every table, sound or not.
pub fn check_table(t: Table) -> Check
    ensures { result ≡ spec.check_of t.entry.sh.shape (words_of t.entry.bytes.now) }
{
    let order = check_order(t);
    let gaps = check_gaps(t);
    Check {
        sound: guards_void(t.sh, t.bytes) & order.tidy & gaps.even,
        locked: order.locked,
        keys: gaps.keys,
    }
}
