// List (01, Answers and their numbers): the whole table is checked before a slot is written.
ghost use Rattle.std.specs.Prelude.{◌≡◌};
ghost use Rattle.rules.specs.Bytes.{words_of};
ghost use Rattle.rules.specs.Shape.{shape_of};
ghost use Rattle.rules.specs.Answer.{number_says, leaves};
ghost use Rattle.rules.specs.Listing.{list_in, listing};

use crate::check::check_table;
use crate::keys::write_keys;
use rules::Refusal;
use table_cluster::run::Check;
use table_words::table::Table;

#[tactic(auto, using(crate::specs::Check::check_refused))]
fn list_in(t: Table, slots: &mut [u32]) -> Result<usize, Refusal>
    ensures { leaves (number_says result) slots.new
        ≡ list_in t.entry.sh.shape (words_of t.entry.bytes.now) slots.old }
{
    let check = check_table(t);
    let seen = Check {
        sound: check.sound,
        locked: check.locked,
    };
    seen.passes()?;
    let n = check.keys as usize;
    if n <= slots.len() {
        write_keys(t, n, slots);
        Ok(n)
    } else {
        Err(Refusal::TooFewSlots)
    }
}

// The answer has the paper's number and count; the slots are left as they were where the call is refused.
#[tactic(auto, unfolding(rules::specs::Listing::listing))]
pub fn list(m: u32, r: u32, table: &[u8], slots: &mut [u32]) -> Result<usize, Refusal>
    ensures { leaves (number_says result) slots.new
        ≡ listing (shape_of m r) table.now slots.old }
{
    let t = Table::lent(m, r, table)?;
    list_in(t, slots)
}
