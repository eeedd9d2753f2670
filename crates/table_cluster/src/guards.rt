// The two guards of a table (01, Shape and layout): whether both are unoccupied and sound.
ghost use Rattle.std.specs.Prelude.{◌≡◌, ◌*◌, length};
ghost use Rattle.rules.specs.Bytes.{words_of};
ghost use Rattle.rules.specs.Shape.{places};
ghost use Rattle.rules.specs.Table.{guards_void};

use table_words::bytes::word_at;
use table_words::shape::{GoodShape, left_guard};
use table_words::word::is_void;

// The left guard, then the right one.
#[tactic(auto, unfolding(rules::specs::Shape::places, rules::specs::Shape::right_guard, rules::specs::Table::guards_void))]
pub fn guards_void(sh: GoodShape, table: &[u8]) -> bool
    requires { length table.now ≡ 2 * places sh.shape }
    ensures { result ≡ guards_void sh.shape (words_of table.now) }
{
    is_void(word_at(table, left_guard())) && is_void(word_at(table, sh.right_guard()))
}
