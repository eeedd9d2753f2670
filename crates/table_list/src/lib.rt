// The call list (01, Answers and their numbers). Its work is linear in the table.
#![tactic(auto)]

mod check;
mod keys;
pub mod list;
