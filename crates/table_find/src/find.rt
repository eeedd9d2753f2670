// Find (01, Answers and their numbers).
ghost use Rattle.std.specs.Prelude.{◌≡◌, true, ◌*◌, length};
ghost use Rattle.rules.specs.Bytes.{words_of};
ghost use Rattle.rules.specs.Shape.{shape_of, places};
ghost use Rattle.rules.specs.Table.{at, guards_void};
ghost use Rattle.rules.specs.Answer.{find_says};
ghost use Rattle.rules.specs.Find.{find_in, find as spec_find};
ghost use Rattle.table_read.specs.Read.{entry};
ghost use Rattle.table_read.specs.FromLeft.{LeftCounted, read_from};

use rules::Refusal;
use table_cluster::gaps::{End, left_end, right_end};
use table_cluster::guards::guards_void;
use table_cluster::run::{Check, check_run};
use table_read::read::{group_start, read_from};
use table_words::bytes::word_at;
use table_words::key::{Parts, split};
use table_words::shape::good_table;
use table_words::word::{is_void, lock, occupied};

// In a cluster that may be read from its left end.
#[tactic(auto, using(table_read::specs::FromLeft::begins))]
fn find_beside(table: &[u8], l: End, k: Parts) -> bool
    requires { LeftCounted table.now l k.home.0 }
    ensures { result ≡ (read_from table.now l.gap.0 (entry k.home.0 k.remainder)).held }
{
    let p = group_start(table, l, k.home);
    read_from(table, l.gap, p, k.home, k.remainder).held
}

// In the cluster of an occupied home: soundness, then the locks, then the key.
#[tactic(auto, using(crate::specs::Around::cluster_laws, crate::specs::Around::cluster_checked, crate::specs::Around::around_open, crate::specs::Around::cluster_counted, crate::specs::Around::cluster_read, crate::specs::Finding::found_refused, crate::specs::Finding::found_inside), unfolding(table_read::specs::Read::read_of))]
fn find_cluster(table: &[u8], k: Parts) -> Result<bool, Refusal>
    requires size { length table.now ≡ 2 * places k.sh.shape }
    requires void { guards_void k.sh.shape (words_of table.now) ≡ true }
    requires full { (at (words_of table.now) k.home.0).occupied ≡ true }
    ensures { find_says result
        ≡ find_in k.sh.shape (words_of table.now) (entry k.home.0 k.remainder) }
{
    let l = left_end(table, k.home);
    let r = right_end(table, k.home, l);
    check_run(k.sh, table, l.gap, r).passes()?;
    Ok(find_beside(table, l, k))
}

// The guards, then the home: where it is empty it is all that there is around, and its word decides.
#[tactic(auto, using(crate::specs::Around::home_inside, crate::specs::Around::empty_checked, crate::specs::Finding::found_barred, crate::specs::Finding::found_refused, crate::specs::Finding::found_alone))]
fn find_at(table: &[u8], k: Parts) -> Result<bool, Refusal>
    requires size { length table.now ≡ 2 * places k.sh.shape }
    ensures { find_says result
        ≡ find_in k.sh.shape (words_of table.now) (entry k.home.0 k.remainder) }
{
    if !guards_void(k.sh, table) {
        return Err(Refusal::Unsound);
    }
    let w = word_at(table, k.home);
    if occupied(w) {
        return find_cluster(table, k);
    }
    let home = Check {
        sound: is_void(w),
        locked: lock(w),
    };
    home.passes()?;
    Ok(false)
}

#[tactic(auto, unfolding(rules::specs::Find::find))]
pub fn find(m: u32, r: u32, table: &[u8], key: u32) -> Result<bool, Refusal>
    ensures { find_says result ≡ spec_find (shape_of m r) table.now key }
{
    let sh = good_table(m, r, table.len())?;
    let k = split(sh, key)?;
    find_at(table, k)
}
