// The fill figure (01, Answers and their numbers).
ghost use Rattle.std.specs.Prelude.{◌≡◌, ◌*◌, ◌≤◌, length};
ghost use Rattle.rules.specs.Lists.{count};
ghost use Rattle.rules.specs.Bytes.{words_of};
ghost use Rattle.rules.specs.Shape.{shape_of, places};
ghost use Rattle.rules.specs.Fill.{figure as spec-figure, fill as spec_fill};
ghost use Rattle.rules.specs.Answer.{number_says};
ghost use Rattle.theory.specs.Dealt.{is_occupied};

use rules::Refusal;
use table_words::bit::bit_of;
use table_words::bytes::word_at;
use table_words::place::Place;
use table_words::shape::{GoodShape, good_table};
use table_words::word::occupied;

// The occupied ones among the n places of a table. Each bit is added, without a branch, so that the loop is vector
// code: a filter and a count took nine times the instructions.
fn count_occupied(table: &[u8], n: u32) -> u32
    requires size { length table.now ≡ 2 * n }
    requires n_bound { n ≤ 1048578 }
    ensures { result ≡ count is_occupied (words_of table.now) }
{
    let mut k = 0;
    for i in 0..n {
        k += bit_of(occupied(word_at(table, Place(i))));
    }
    k
}

// Occupied words × 1,000 / number of words, rounded down.
fn figure(sh: GoodShape, table: &[u8]) -> u32
    requires size { length table.now ≡ 2 * places sh.shape }
    ensures { result ≡ spec-figure sh.shape (words_of table.now) }
{
    let n = sh.places();
    count_occupied(table, n) * 1000 / n
}

#[tactic(auto, unfolding(rules::specs::Fill::fill))]
pub fn fill(m: u32, r: u32, table: &[u8]) -> Result<u32, Refusal>
    ensures { number_says result ≡ spec_fill (shape_of m r) table.now }
{
    let sh = good_table(m, r, table.len())?;
    Ok(figure(sh, table))
}
