// The types of document 01: the shape, the task record, why a call is refused, and what put answers.
// A call that can be refused answers a Result; the rules themselves are definitions, in specs/.
#![tactic(auto)]

ghost use Rattle.std.specs.Prelude.{◌≡◌};
ghost use Rattle.rules.specs.Answer.{number_of_refusal};

use std::error::Error;
use std::fmt;

// m home bits and r remainder bits.
#[derive(Clone, Copy, Debug, PartialEq, Eq)]
pub struct Shape {
    pub m: u32,
    pub r: u32,
}

// What a task is about: its key, its phase, the places it has reached, and its answer.
#[derive(Clone, Copy, Debug, PartialEq, Eq)]
pub struct Task {
    pub key: u32,
    pub phase: u8,
    pub left: u32,
    pub right: u32,
    pub hand: u32,
    pub goal: u32,
    pub mark: u8,
    pub answer: u8,
}

// Why a call is refused, under the paper's numbers.
#[derive(Clone, Copy, Debug, PartialEq, Eq)]
pub enum Refusal {
    BadShape = 1,
    BadKey = 2,
    BadTask = 3,
    Busy = 4,
    AtRest = 5,
    Unsound = 6,
    Locked = 7,
    Full = 8,
    TooFewSlots = 9,
}

impl From<Refusal> for u8 {
    ghost from_gives = { λ n number. number ≡ number_of_refusal n };

    fn from(n: Refusal) -> u8 {
        n as u8
    }
}

impl fmt::Display for Refusal {
    fn fmt<W: fmt::Write>(&self, f: &mut fmt::Formatter<W>) -> fmt::Result {
        write!(f, "refused {}", u8::from(*self))
    }
}

impl Error for Refusal {}

// What put answers of a key that it was not refused: it was there already, or it has been added.
#[derive(Clone, Copy, Debug, PartialEq, Eq)]
pub enum PutAnswer {
    Found = 1,
    Inserted = 2,
}
