// Hexadecimal digits as the programs read and print them (01, The frame program): either letter case in, capitals out.
// Each function is one equation with the definitions of the crate frame_rules.
#![tactic(auto)]

pub mod print;
pub mod read;
