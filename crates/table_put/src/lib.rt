// The calls that add keys to a table (01, Answers and their numbers; Where a new key goes): put, and build, which puts
// keys one by one. Both require nothing, and are one equation with the rules' definition for every input.
#![tactic(auto)]

mod adding;
pub mod build;
pub mod put;
