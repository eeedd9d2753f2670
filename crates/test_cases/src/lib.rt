// The definitions of the crate rules computed over all small cases: no code, only tests, in specs/.
#![tactic(auto)]
