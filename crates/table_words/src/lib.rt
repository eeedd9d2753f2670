// Code over a table's lent bytes: the shape, the split of a key, and the words at their places.
// Each function is one equation with a definition of the crate rules.
#![tactic(auto)]

pub mod bit;
pub mod bytes;
pub mod key;
pub mod place;
pub mod shape;
pub mod side;
pub mod table;
pub mod word;
