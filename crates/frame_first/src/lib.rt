// A first line and a table's line (01, The frame program), read from a line's bytes by any program that has them.
// Each function is one equation with the definitions of the crate frame_rules, and takes every line.
#![tactic(auto)]

pub mod first;
pub mod table;
