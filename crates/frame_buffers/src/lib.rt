// What is lent to a run (01, The frame program): whether a call can be carried out with it, and the bytes of a line
// that is begun, held there.
#![tactic(auto)]

pub mod check;
pub mod hold;
