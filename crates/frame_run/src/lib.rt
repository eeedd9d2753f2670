// A line that is whole (01, The frame program): what it makes of the run, and prints; and the end of the input.
// The crate frame_feed brings the lines.
#![tactic(auto)]

pub mod close;
mod first;
mod frame;
mod print;
