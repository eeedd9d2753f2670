// One line as a call (01, The frame program): whether it is a line of keys, and its keys run through idle tasks.
// It stands apart from the reading of input.
#![tactic(auto)]

pub mod line;
mod play;
