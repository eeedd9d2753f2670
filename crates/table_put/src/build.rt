// Build (01, Answers and their numbers): puts from all zero, so into a table that stays sound and unlocked.
// A key that finds no room shows that there are too many.
ghost use Rattle.std.specs.Prelude.{◌≡◌, true, is_ok, IfErr, map, ℕ, ◌*◌, ◌<◌, length, ltb};
ghost use Rattle.rules.specs.Lists.{all};
ghost use Rattle.rules.specs.Bytes.{words_of};
ghost use Rattle.rules.specs.Shape.{shape_of, places, keys as keys_of};
ghost use Rattle.rules.specs.Entry.{split};
ghost use Rattle.rules.specs.Answer.{leaves, done_says};
ghost use Rattle.rules.specs.Build.{build_in, build as spec_build};
ghost use Rattle.rules.specs.declared.Refusal.TheVariants.{Full};
ghost use Rattle.table_read.specs.Read.{entry};
ghost use Rattle.table_put.specs.Filling.{filled, filled_if, fill_with, fill_all, Clean};

use crate::adding::put_open;
use rules::{PutAnswer, Refusal};
use table_words::bytes::clear;
use table_words::key::{Parts, home_of, remainder_of};
use table_words::place::place_of_home;
use table_words::shape::{GoodShape, good_table};

// The number of keys is a power of two, so it is enough to ask for all of them laid over one another.
fn good_keys(sh: GoodShape, keys: &[u32]) -> bool
    ensures { result ≡ all (λ (key : ℕ). ltb key (keys_of sh.shape)) keys.now }
{
    let over = keys.iter().fold(0, |over, key| over | *key);
    sh.has_key(over)
}

// The parts of a key that is known to be in range.
#[tactic(auto, using(table_words::specs::Split::home_fits, table_words::specs::Split::split_in_shape), unfolding(rules::specs::Entry::split))]
fn parts_of(sh: GoodShape, key: u32) -> Parts
    requires low { key < keys_of sh.shape }
    ensures shape { result.sh ≡ sh }
    ensures parts { entry result.home.0 result.remainder ≡ split sh.shape key }
{
    Parts {
        sh,
        home: place_of_home(home_of(sh, key)),
        remainder: remainder_of(sh, key),
    }
}

// Put in a table that is known to be sound and unlocked: nothing of that is asked again, and it can only be full.
fn put_clean(sh: GoodShape, table: &mut [u8], key: u32) -> Result<PutAnswer, Refusal>
    requires size { length table.old ≡ 2 * places sh.shape }
    requires low { key < keys_of sh.shape }
    requires clean { Clean sh.shape (words_of table.old) }
    ensures room { filled_if (is_ok result) (words_of table.new)
        ≡ fill_with sh.shape (filled (words_of table.old)) (split sh.shape key) }
    ensures err { IfErr result (λ n. n ≡ Full) }
{
    let k = parts_of(sh, key);
    put_open(table, k)
}

fn put_all(sh: GoodShape, table: &mut [u8], keys: &[u32]) -> Result<(), Refusal>
    requires size { length table.old ≡ 2 * places sh.shape }
    requires low { all (λ (key : ℕ). ltb key (keys_of sh.shape)) keys.now ≡ true }
    requires clean { Clean sh.shape (words_of table.old) }
    ensures room { filled_if (is_ok result) (words_of table.new)
        ≡ fill_all sh.shape (filled (words_of table.old)) (map (split sh.shape) keys.now) }
    ensures err { IfErr result (λ n. n ≡ Full) }
{
    for key in keys {
        put_clean(sh, table, *key)?;
    }
    Ok(())
}

fn build_in(sh: GoodShape, table: &mut [u8], keys: &[u32]) -> Result<(), Refusal>
    requires size { length table.old ≡ 2 * places sh.shape }
    requires low { all (λ (key : ℕ). ltb key (keys_of sh.shape)) keys.now ≡ true }
    ensures { leaves (done_says result) table.new
        ≡ build_in sh.shape table.old (map (split sh.shape) keys.now) }
{
    let n = table.len();
    clear(table, n);
    let put = put_all(sh, table, keys);
    if put.is_err() {
        clear(table, n);
    }
    put
}

#[tactic(auto, unfolding(rules::specs::Build::build))]
pub fn build(m: u32, r: u32, table: &mut [u8], keys: &[u32]) -> Result<(), Refusal>
    ensures { leaves (done_says result) table.new
        ≡ spec_build (shape_of m r) table.old keys.now }
{
    let sh = good_table(m, r, table.len())?;
    if good_keys(sh, keys) {
        build_in(sh, table, keys)
    } else {
        Err(Refusal::BadKey)
    }
}
