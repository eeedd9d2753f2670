// The keys of a sound table, written from left to right. All groups of the table take their homes from one queue: one
// cursor goes through the occupied words and one through the virgin bits, and both only to the right. While keys are
// left each finds a next one, so neither asks for the table's end.
ghost use Rattle.std.specs.Prelude.{◌≡◌, ◌+◌, ◌≤◌, Bool, length};
ghost use Rattle.rules.specs.Lists.{bit_of, at_front};
ghost use Rattle.rules.specs.Word.{Word, word_of};
ghost use Rattle.rules.specs.Bytes.{words_of};
ghost use Rattle.rules.specs.Table.{list};
ghost use Rattle.table_list.specs.Scan.{Found, Tells, first_from, home_from, Homed};
ghost use Rattle.table_list.specs.Write.{Listable};

use table_words::bytes::word_at;
use table_words::key::{Parts, join};
use table_words::place::Place;
use table_words::shape::left_guard;
use table_words::table::Table;
use table_words::word::{change, occupied, remainder, virgin, with_change};

// The first place after p whose word is one that is sought, where there is one.
fn next_place<F: Fn(u16) -> bool>(table: &[u8], p: Place, sought: F) -> Place
    requires callable { F.IsAlwaysCallable sought }
    requires table_len_bound { length table.now ≤ 4294967296 }
    requires found { Found (F.post sought) (words_of table.now) (p.0 + 1) }
    ensures { (is : Word → Bool) → Tells (F.post sought) is → result.0 ≡ first_from is (words_of table.now) (p.0 + 1) }
{
    let mut i = p.0;
    loop {
        i += 1;
        if sought(word_at(table, Place(i))) {
            return Place(i);
        }
    }
}

// The home of the key after the word w, whose home is h: the next one where w ends its group, else h itself.
fn home_after(table: &[u8], h: Place, w: u16) -> Place
    requires table_len_bound { length table.now ≤ 4294967296 }
    requires homed { Homed table.now h.0 w }
    ensures { result.0 ≡ home_from (words_of table.now) (h.0 + bit_of (word_of w).change) }
{
    if change(w) {
        next_place(table, h, virgin)
    } else {
        h
    }
}

// The n keys of the table, to the front of the slots. The left guard is taken for a word that ends a group.
pub fn write_keys(t: Table, n: usize, slots: &mut [u32])
    requires { Listable t.sh.shape t.bytes.now n slots.old }
    ensures { slots.new ≡ at_front (list t.entry.sh.shape (words_of t.entry.bytes.now)) slots.old }
{
    let mut h = left_guard();
    let mut p = h;
    let mut w = with_change(0, true);
    for slot in &mut slots[..n] {
        h = home_after(t.bytes, h, w);
        p = next_place(t.bytes, p, occupied);
        w = t.word(p);
        *slot = join(Parts {
            sh: t.sh,
            home: h,
            remainder: remainder(w),
        });
    }
}
