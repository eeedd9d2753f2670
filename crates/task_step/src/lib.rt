// Tasks on records by value (01, Tasks and their steps): giving a key, and one step.
// The thin calls over lent records stand above this crate.
#![tactic(auto)]

pub mod give;
pub mod step;
