// The theory of sound tables: no code, only laws about the definitions of the crate rules, in specs/.
#![tactic(auto)]
