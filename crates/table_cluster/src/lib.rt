// Code that looks at a cluster in a table's lent bytes, and writes nothing: its ends, whether it is sound, the guards.
// Find, put, list and the steps use it. Each function is one equation with a definition of the crate rules or, for the
// ends with their counts, of its own specs; its work is linear in the cluster.
#![tactic(auto)]

pub mod gaps;
pub mod guards;
pub mod run;
