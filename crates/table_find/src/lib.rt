// The calls that ask a table (01, Answers and their numbers): find, and the fill figure. Both take bare numbers and
// lent bytes, require nothing, and are one equation with the rules' definition for every input.
#![tactic(auto)]

pub mod fill;
pub mod find;
