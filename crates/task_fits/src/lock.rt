// The lock at a place, set or cleared.
ghost use Rattle.std.specs.Prelude.{◌≡◌, ◌+◌, ◌*◌, ◌<◌, length, set};
ghost use Rattle.rules.specs.Word.{with_lock};
ghost use Rattle.rules.specs.Bytes.{words_of};
ghost use Rattle.rules.specs.Table.{at};

use table_words::bytes::{set_word, word_at};
use table_words::place::Place;
use table_words::word::with_lock;

pub fn set_lock(table: &mut [u8], p: Place, b: bool)
    requires { 2 * p.0 + 1 < length table.old }
    ensures { words_of table.new
        ≡ set (words_of table.old) p.0 (with_lock b (at (words_of table.old) p.0)) }
{
    let w = word_at(table, p);
    set_word(table, p, with_lock(w, b));
}
