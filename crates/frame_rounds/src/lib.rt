// A line's keys run through the tasks in rounds (01, The frame program): one task's turn, a round, and rounds up to a
// limit.
// The call for one line stands above this crate.
#![tactic(auto)]

pub mod first;
pub mod round;
pub mod turn;
