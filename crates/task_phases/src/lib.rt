// The phases 1 to 12 of a busy task (01, Tasks and their steps): one method for each takes the record by value and
// hands the next one back. 1 to 6 seek the ends of the home's cluster and lock them, 7 reads, 8 to 12 settle the key.
#![tactic(auto)]

use rules::Task;

mod answer;
mod read;
mod record;
mod seek;
mod settle;

// A record in phases 1 to 12.
#[derive(Clone, Copy)]
pub struct Busy(pub Task);
