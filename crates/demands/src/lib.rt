// The lead's demands as theorems about the definitions of the crate rules: no code. Statements are in
// specs/Demand1.antt and specs/Demand2.antt.
#![tactic(auto)]
