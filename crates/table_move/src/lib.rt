// The words in motion (01, phases 8 to 10), in lent bytes: a fill, the moves of the hand to its goal, and the mark.
// Each function is one equation with a definition of the rules or of their theory.
#![tactic(auto)]

pub mod hand;
pub mod marks;
