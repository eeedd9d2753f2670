// The frame program as a library (01, The frame program): the input is fed in pieces of any size, and what is printed
// stands at the front of a lent buffer. Memory is fixed.
#![tactic(auto)]

pub mod feed;
pub mod finish;
