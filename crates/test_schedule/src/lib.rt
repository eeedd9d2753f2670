// A schedule, line by line (docs/SCHEDULE.md): what each line does to the table and the records, and what it shows.
// Nothing here reads or writes.
#![tactic(auto)]

mod numbers;
pub mod record;
pub mod run;
