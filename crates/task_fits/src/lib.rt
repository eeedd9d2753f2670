// What is asked of a task before it acts (01, Tasks and their steps): the phases, by their numbers; whether its record
// fits; the record of no task; and the lock at a place, set or cleared. What a phase does stands above this crate.
#![tactic(auto)]

pub mod fits;
pub mod lock;
pub mod phase;
pub mod record;
