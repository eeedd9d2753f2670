// Document 01's frame program as definitions, in specs/: digits, lines, rounds, and the whole output of a whole input.
// Here are the types of its calls; this crate has no function.
#![tactic(auto)]

use rules::Shape;

// What a first line says: the shape, and the number of tasks.
#[derive(Clone, Copy, Debug, PartialEq, Eq)]
pub struct First {
    pub shape: Shape,
    pub tasks: u32,
}

// How far a run is: its first line, its frames with what the first line said, or the end.
#[derive(Clone, Copy, Debug, PartialEq, Eq)]
pub enum Stage {
    AtFirst,
    Among(First),
    Ended,
}

// A run between two calls, beside the buffers that are lent: its stage, and how many bytes of the line begun are held.
// More than 4,096 stands for a line that is too long.
#[derive(Clone, Copy, Debug, PartialEq, Eq)]
pub struct Run {
    pub stage: Stage,
    pub held: usize,
}

// One line: passed over, the run has ended, or the number of its keys, each of which is answered.
#[derive(Clone, Copy, Debug, PartialEq, Eq)]
pub enum LineAnswer {
    PassedOver,
    Ended,
    Answered(usize),
}

// Feeding: the run that follows, the point reached in the piece, and how many bytes stand at the front of the output.
#[derive(Clone, Copy, Debug, PartialEq, Eq)]
pub struct Fed {
    pub run: Run,
    pub at: usize,
    pub wrote: usize,
}
