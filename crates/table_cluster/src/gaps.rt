// The ends of a home's cluster (01, Shape and layout): the empty places there, with the bits of the cluster counted on
// the way to them, or the right one alone.
ghost use Rattle.std.specs.Prelude.{◌≡◌, true, false, ◌+◌, ◌*◌, ◌≤◌, ◌<◌, length, get_or};
ghost use Rattle.rules.specs.Bytes.{words_of};
ghost use Rattle.rules.specs.Table as spec;
ghost use Rattle.rules.specs.Table.{at, right_gap};
ghost use Rattle.table_cluster.specs.Ends.{Closed, Room, left_end, right_end, walked};

use table_words::bytes::word_at;
use table_words::place::{Place, left_of, right_of};
use table_words::side::{Left, Right, Side};
use table_words::word::{change, occupied, virgin};

#[tactic(auto, using(theory::specs::Places::occupied_at))]
fn taken(table: &[u8], p: Place) -> bool
    requires { 2 * p.0 + 1 < length table.now }
    ensures { result ≡ get_or (spec.occupied_places (words_of table.now)) p.0 false }
{
    occupied(word_at(table, p))
}

// A table that has no gap there ends the search: the place is then the number of its words, or p itself beyond them.
#[tactic(auto, using(crate::specs::Scan::gap_laws))]
pub fn right_gap(table: &[u8], p: Place) -> Place
    requires { length table.now ≤ 2097156 }
    ensures { result.0 ≡ right_gap (spec.occupied_places (words_of table.now)) p.0 }
{
    let end = (table.len() / 2) as u32;
    let mut gap = p;
    while gap.0 < end && taken(table, gap) {
        gap = right_of(gap);
    }
    gap
}

// An end of a home's cluster: the gap there, and the virgin and change bits that were counted on the way to it.
#[derive(Clone, Copy, Debug, PartialEq, Eq)]
pub struct End {
    pub gap: Place,
    pub virgins: u32,
    pub changes: u32,
}

// From place p to the side S, to the gap there, with the bits of the places passed added to those counted before. It
// lies in the table, so no bound is tested.
fn walk<S: Side>(table: &[u8], p: Place, virgins: u32, changes: u32) -> End
    requires closed { Closed S.side table.now p.0 }
    requires virgins_room { Room S.side table.now p.0 virgins }
    requires changes_room { Room S.side table.now p.0 changes }
    ensures { result ≡ walked S.side (words_of table.now) p.0 virgins changes }
{
    let mut end = End {
        gap: p,
        virgins,
        changes,
    };
    let mut w = word_at(table, p);
    while occupied(w) {
        end.virgins += u32::from(virgin(w));
        end.changes += u32::from(change(w));
        end.gap = S::beside(end.gap);
        w = word_at(table, end.gap);
    }
    end
}

// The left end: the bits are those of the places after the gap and before the home. The left guard is unoccupied, so
// there is a gap.
#[tactic(auto, using(crate::specs::Ends::some_before, crate::specs::Ends::left_walk))]
pub fn left_end(table: &[u8], h: Place) -> End
    requires h_in_bounds { 2 * h.0 + 1 < length table.now }
    requires table_value { (at (words_of table.now) 0).occupied ≡ false }
    requires h_value { (at (words_of table.now) h.0).occupied ≡ true }
    ensures { result ≡ left_end (words_of table.now) h.0 }
{
    walk::<Left>(table, left_of(h), 0, 0)
}

// The right end, with the bits of the home's side left of it: those of the whole cluster.
#[tactic(auto, using(crate::specs::Ends::right_walk))]
pub fn right_end(table: &[u8], h: Place, l: End) -> End
    requires table_len_bound { length table.now ≤ 2097156 }
    requires h_in_bounds { 2 * right_gap (spec.occupied_places (words_of table.now)) h.0 + 1 < length table.now }
    requires table_value { (at (words_of table.now) 0).occupied ≡ false }
    requires h_value { (at (words_of table.now) h.0).occupied ≡ true }
    requires l_value { l ≡ left_end (words_of table.now) h.0 }
    ensures { result ≡ right_end (words_of table.now) h.0 }
{
    walk::<Right>(table, h, l.virgins, l.changes)
}
