// The word at a place of the lent bytes, read and written: two bytes a word, low byte first (01, Shape and layout);
// and bytes cleared.
ghost use Rattle.std.specs.Prelude.{◌≡◌, ◌++◌, ◌+◌, ◌*◌, ◌≤◌, ◌<◌, length, set, drop, replicate};
ghost use Rattle.rules.specs.Word.{word_of};
ghost use Rattle.rules.specs.Bytes.{words_of};
ghost use Rattle.rules.specs.Table.{at};

use crate::place::Place;

// Where the low byte of a place's word stands; the high byte is the next.
fn low_byte(p: Place) -> usize
    ensures { result ≡ 2 * p.0 }
{
    2 * (p.0 as usize)
}

#[tactic(auto, using(crate::specs::Layout::word_at))]
pub fn word_at(table: &[u8], p: Place) -> u16
    requires { 2 * p.0 + 1 < length table.now }
    ensures { word_of result ≡ at (words_of table.now) p.0 }
{
    let i = low_byte(p);
    u16::from_le_bytes([table[i], table[i + 1]])
}

#[tactic(auto, using(crate::specs::Layout::word_set))]
pub fn set_word(table: &mut [u8], p: Place, w: u16)
    requires { 2 * p.0 + 1 < length table.old }
    ensures { words_of table.new ≡ set (words_of table.old) p.0 (word_of w) }
{
    let i = low_byte(p);
    let [low, high] = w.to_le_bytes();
    table[i] = low;
    table[i + 1] = high;
}

// The first n bytes become zero.
#[tactic(auto, using(std::proofs::lemmas::List::Edits::fill_more))]
pub fn clear(table: &mut [u8], n: usize)
    requires { n ≤ length table.old }
    ensures { table.new ≡ replicate n 0 ++ drop n table.old }
{
    for byte in &mut table[..n] {
        *byte = 0;
    }
}
