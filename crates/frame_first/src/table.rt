// A table's line (01, The frame program): all words from place 0, four digits each.
// A bad line leaves the table as it was.
ghost use Rattle.std.specs.Prelude.{◌≡◌, true, ◌*◌, length};
ghost use Rattle.rules.specs.Lists.{all};
ghost use Rattle.frame_rules.specs.Digits.{is_digit};
ghost use Rattle.frame_rules.specs.TableLine.{table_of_line, table_read, read_table};

use frame_digits::read::Digits;
use rules::Shape;
use table_words::shape::good_table;

// The words of a line of digits: the highest digit comes first in the line, and the low byte in the table.
fn store_words(line: Digits, table: &mut [u8], n: usize)
    requires long { length line.text.now ≡ 4 * n }
    requires room { length table.old ≡ 2 * n }
    ensures { table.new ≡ table_of_line line.entry.text.now }
{
    for i in 0..n {
        let [low, high] = (line.number(4 * i, 4) as u16).to_le_bytes();
        table[2 * i] = low;
        table[2 * i + 1] = high;
    }
}

// Whether the line is four digits for each place, and the table lent for them as long as the shape asks.
#[tactic(auto, unfolding(frame_rules::specs::TableLine::read_table, frame_rules::specs::TableLine::good_table_line))]
pub fn read_table(sh: Shape, line: &[u8], table: &mut [u8]) -> bool
    ensures { table_read result table.new
        ≡ read_table sh line.now table.old }
{
    if good_table(sh.m, sh.r, table.len()).is_err() || line.len() != 2 * table.len() {
        return false;
    }
    let Some(digits) = Digits::read(line) else {
        return false;
    };
    store_words(digits, table, table.len() / 2);
    true
}
