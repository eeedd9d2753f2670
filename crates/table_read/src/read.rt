// The keys of a home's cluster held against one key: is it there, how many are smaller, and the mark that it would get
// (01, Tasks and their steps, phase 7). Find, put and the read step use it.
ghost use Rattle.std.specs.Prelude.{◌≡◌, cond, ℕ, ◌+◌, ◌*◌, ◌≤◌, ◌<◌, length};
ghost use Rattle.std.proofs.Math.Seq.{slice};
ghost use Rattle.rules.specs.Lists.{count};
ghost use Rattle.rules.specs.Bytes.{words_of};
ghost use Rattle.theory.specs.Dealt.{is_change};
ghost use Rattle.table_read.specs.Mark.{kind};
ghost use Rattle.table_read.specs.Read as spec;
ghost use Rattle.table_read.specs.Read.{entry, unseen};
ghost use Rattle.table_read.specs.Group.{words_from, passed, more, read_seen, group_read};
ghost use Rattle.table_read.specs.FromLeft.{all_but, LeftCounted, group_start, Begins, read_from};

use crate::mark::Mark;
use table_cluster::gaps::End;
use table_words::bit::bit_of;
use table_words::bytes::word_at;
use table_words::place::{Place, left_of, places_between, right_of};
use table_words::word::{change, remainder, virgin};

// Is the key there, how many keys are smaller, and the mark that it would get.
#[derive(Clone, Copy)]
pub struct Read {
    pub held: bool,
    pub smaller: u32,
    pub mark: Mark,
}

// What the keys passed so far tell: was the key among them, how many were smaller, was one of its group,
// and was each of its group smaller.
#[derive(Clone, Copy)]
struct Seen {
    held: bool,
    smaller: u32,
    grouped: bool,
    largest: bool,
}

// One more key of the group is seen, that of remainder y, where that of remainder x is looked for. A match on the order
// of the two would cost a put three instructions more.
fn look(seen: Seen, x: u16, y: u16) -> Seen
    requires { seen.smaller < 4294967295 }
    ensures { (home_at : ℕ) → result ≡ spec.look (entry home_at x) (entry home_at y) seen }
{
    if y < x {
        Seen {
            smaller: seen.smaller + 1,
            grouped: true,
            ..seen
        }
    } else if x < y {
        Seen {
            grouped: true,
            largest: false,
            ..seen
        }
    } else {
        Seen {
            held: true,
            grouped: true,
            largest: false,
            ..seen
        }
    }
}

fn mark_of(grouped: bool, largest: bool) -> Mark
    ensures { result ≡ kind grouped largest }
{
    match (grouped, largest) {
        (false, _) => Mark::NewGroup,
        (true, true) => Mark::Last,
        (true, false) => Mark::Within,
    }
}

fn read_of(seen: Seen) -> Read
    ensures { result ≡ read_seen seen }
{
    Read {
        held: seen.held,
        smaller: seen.smaller,
        mark: mark_of(seen.grouped, seen.largest),
    }
}

// The place after the first k groups from place a on.
fn pass_groups(table: &[u8], a: Place, k: u32) -> Place
    requires { k ≤ count is_change (words_from table.now a.0) }
    ensures { result.0 ≡ a.0 + passed (words_from table.now a.0) k }
{
    let mut left = k;
    let mut i = a.0;
    while left > 0 {
        let w = word_at(table, Place(i));
        left -= bit_of(change(w));
        i += 1;
    }
    Place(i)
}

// The place after the groups between l and the home, all but the last k of them.
fn pass_back(table: &[u8], l: Place, h: Place, k: u32) -> Place
    requires l_lt_h_1 { l.0 < h.0 }
    requires l_lt_h_2 { 2 * h.0 ≤ length table.now }
    requires k_bound { k ≤ count is_change (slice (l.0 + 1) h.0 (words_of table.now)) }
    ensures { result.0 ≡ l.0 + 1 + all_but k (slice (l.0 + 1) h.0 (words_of table.now)) }
{
    let mut left = k;
    for i in (right_of(l).0..h.0).rev() {
        if change(word_at(table, Place(i))) {
            if left == 0 {
                return right_of(Place(i));
            }
            left -= 1;
        }
    }
    right_of(l)
}

// Where the home's group begins or would: the groups of the homes left of it are passed over. The way is counted from
// the home, to the right if more homes than groups' ends stand left of it, else to the left.
pub fn group_start(table: &[u8], l: End, h: Place) -> Place
    requires { LeftCounted table.now l h.0 }
    ensures { result.0 ≡ l.gap.0 + 1 + group_start table.now l.gap.0 h.0 }
{
    if l.changes < l.virgins {
        pass_groups(table, h, l.virgins - l.changes)
    } else {
        pass_back(table, l.gap, h, l.changes - l.virgins)
    }
}

// The words from p on are the group of a home, with so many keys before it: they are looked at up to its end. The last
// look stands apart, since little of it is needed where the key is only to be found.
fn read_group(table: &[u8], p: Place, x: u16, before: u32) -> Read
    requires ends { 1 ≤ count is_change (words_from table.now p.0) }
    requires before_bound { before ≤ p.0 }
    ensures { (home_at : ℕ) →
        result ≡ group_read (entry home_at x) (more before unseen) (words_from table.now p.0) }
{
    let mut seen = Seen {
        held: false,
        smaller: before,
        grouped: false,
        largest: true,
    };
    let mut i = p.0;
    loop {
        let w = word_at(table, Place(i));
        if change(w) {
            return read_of(look(seen, x, remainder(w)));
        }
        seen = look(seen, x, remainder(w));
        i += 1;
    }
}

// The key of home and remainder x, in the cluster after the gap l: p is where the home's group begins or would.
pub fn read_from(table: &[u8], l: Place, p: Place, h: Place, x: u16) -> Read
    requires { Begins table.now l.0 p.0 h.0 }
    ensures { result ≡ read_from table.now l.0 (entry h.0 x) }
{
    let before = places_between(l, p);
    if virgin(word_at(table, h)) {
        read_group(table, p, x, before)
    } else {
        Read {
            held: false,
            smaller: before,
            mark: Mark::NewGroup,
        }
    }
}
