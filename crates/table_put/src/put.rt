// Put (01, Answers and their numbers; Where a new key goes).
ghost use Rattle.std.specs.Prelude.{◌≡◌, true, ◌*◌, length};
ghost use Rattle.rules.specs.Bytes.{words_of};
ghost use Rattle.rules.specs.Shape.{shape_of, places};
ghost use Rattle.rules.specs.Table.{at, guards_void};
ghost use Rattle.rules.specs.Answer.{leaves, put_says};
ghost use Rattle.rules.specs.Put.{put_in, put as spec_put};
ghost use Rattle.table_read.specs.Read.{entry};
ghost use Rattle.table_put.specs.Putting.{words_left};

use crate::adding::{put_alone, put_beside};
use rules::{PutAnswer, Refusal};
use table_cluster::gaps::{left_end, right_end};
use table_cluster::guards::guards_void;
use table_cluster::run::{Check, check_run};
use table_words::bytes::word_at;
use table_words::key::{Parts, split};
use table_words::shape::good_table;
use table_words::word::{is_void, lock, occupied};

// The home is occupied: soundness of its cluster, then the locks, then the key.
#[tactic(auto, using(table_find::specs::Around::cluster_laws, table_find::specs::Around::cluster_checked, crate::specs::Putting::put_refused))]
fn put_cluster(table: &mut [u8], k: Parts) -> Result<PutAnswer, Refusal>
    requires size { length table.old ≡ 2 * places k.sh.shape }
    requires void { guards_void k.sh.shape (words_of table.old) ≡ true }
    requires full { (at (words_of table.old) k.home.0).occupied ≡ true }
    ensures { leaves (put_says result) (words_of table.new)
        ≡ words_left
        (words_of table.old)
        (put_in k.sh.shape (words_of table.old) (entry k.home.0 k.remainder)) }
{
    let l = left_end(table, k.home);
    let r = right_end(table, k.home, l);
    check_run(k.sh, table, l.gap, r).passes()?;
    put_beside(table, k, l)
}

// The guards, then the home: where it is empty it is all that there is around, and its word decides.
#[tactic(auto, using(table_find::specs::Around::home_inside, table_find::specs::Around::empty_checked, table_find::specs::Around::around_open, crate::specs::Putting::put_barred, crate::specs::Putting::put_refused))]
fn put_at(table: &mut [u8], k: Parts) -> Result<PutAnswer, Refusal>
    requires size { length table.old ≡ 2 * places k.sh.shape }
    ensures { leaves (put_says result) (words_of table.new)
        ≡ words_left
        (words_of table.old)
        (put_in k.sh.shape (words_of table.old) (entry k.home.0 k.remainder)) }
{
    if !guards_void(k.sh, table) {
        return Err(Refusal::Unsound);
    }
    let w = word_at(table, k.home);
    if occupied(w) {
        return put_cluster(table, k);
    }
    let home = Check {
        sound: is_void(w),
        locked: lock(w),
    };
    home.passes()?;
    put_alone(table, k);
    Ok(PutAnswer::Inserted)
}

#[tactic(auto, unfolding(rules::specs::Put::put))]
pub fn put(m: u32, r: u32, table: &mut [u8], key: u32) -> Result<PutAnswer, Refusal>
    ensures { leaves (put_says result) table.new ≡ spec_put (shape_of m r) table.old key }
{
    let sh = good_table(m, r, table.len())?;
    let k = split(sh, key)?;
    put_at(table, k)
}
