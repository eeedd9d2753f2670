// Code that reads a cluster for one key, from its left end: find, put and the read step use it. It writes nothing; its
// work is linear in the cluster.
#![tactic(auto)]

pub mod mark;
pub mod read;
