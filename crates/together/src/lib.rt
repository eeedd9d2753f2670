// Demand 3, tasks together: no code, only the theorem about runs of the definitions of give and step. Statements are in
// specs/Demand3.antt.
#![tactic(auto)]
