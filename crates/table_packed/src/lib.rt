// The answers of the calls, each packed into one number for C: value + 2^56 × refusal number (specs/Packed.antt).
// C has no enum that holds a number, so the refusal's number stands in the highest byte and the value below it.
#![tactic(auto)]

ghost use Rattle.std.specs.Prelude.{◌≡◌, ℕ};
ghost use Rattle.rules.specs.Lists.{bit_of};
ghost use Rattle.rules.specs.Answer.{answer_by, put_number};
ghost use Rattle.table_packed.specs.Packed.{packed};

use rules::{PutAnswer, Refusal};

// What a call gives where it is accepted, and the number that stands for it.
pub trait Value {
    ghost number: { Self → ℕ };

    fn number(self) -> u64
        ensures { result ≡ number self };
}

// Find: absent 0, present 1.
impl Value for bool {
    ghost number = { bit_of };

    fn number(self) -> u64 {
        u64::from(self)
    }
}

// Put: found 1, inserted 2.
impl Value for PutAnswer {
    ghost number = { put_number };

    fn number(self) -> u64 {
        u64::from(self as u8)
    }
}

// List: the count.
impl Value for usize {
    ghost number = { λ n. n };

    fn number(self) -> u64 {
        self as u64
    }
}

// The fill figure.
impl Value for u32 {
    ghost number = { λ n. n };

    fn number(self) -> u64 {
        u64::from(self)
    }
}

// Build has nothing to give.
impl Value for () {
    ghost number = { λ _. 0 };

    fn number(self) -> u64 {
        0
    }
}

pub fn pack<A: Value>(answer: Result<A, Refusal>) -> u64
    ensures { result ≡ packed (answer_by A.number answer) }
{
    match answer {
        Ok(value) => value.number(),
        Err(n) => 72057594037927936 * u64::from(u8::from(n)),
    }
}
