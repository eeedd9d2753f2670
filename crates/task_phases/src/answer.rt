// What a task answers in the end (01, Tasks and their steps). A record keeps its number, and 0 until it is known.
ghost use Rattle.std.specs.Prelude.{◌≡◌};
ghost use Rattle.task_phases.specs.Answer.{number_of};

#[derive(Clone, Copy, Debug, PartialEq, Eq)]
pub enum Answer {
    Found = 1,
    Inserted = 2,
    Full = 3,
    Unsound = 4,
}

impl From<Answer> for u8 {
    ghost from_gives = { λ answer number. number ≡ number_of answer };

    fn from(answer: Answer) -> Self {
        answer as u8
    }
}
