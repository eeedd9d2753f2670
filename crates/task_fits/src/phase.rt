// The phases of a task (01, Tasks and their steps). A record keeps the number of its phase, since any bytes may be lent
// for a record; code that asks what is done in a phase matches on these.
ghost use Rattle.std.specs.Prelude.{◌≡◌};
ghost use Rattle.task_fits.specs.Phase.{number_of, Numbered};

#[derive(Clone, Copy, Debug, PartialEq, Eq)]
pub enum Phase {
    Idle,
    Home,
    LookLeft,
    LookRight,
    LockLeft,
    LockRight,
    BackOff,
    Read,
    FillHand,
    Move,
    Mark,
    FreeLeft,
    FreeRight,
    Done,
}

// A number above 13, which is that of no phase.
#[derive(Clone, Copy, Debug, PartialEq, Eq)]
pub struct UnknownPhase(pub u8);

impl TryFrom<u8> for Phase {
    type Error = UnknownPhase;

    ghost try_from_gives = { Numbered };

    fn try_from(number: u8) -> Result<Self, UnknownPhase> {
        match number {
            0 => Ok(Phase::Idle),
            1 => Ok(Phase::Home),
            2 => Ok(Phase::LookLeft),
            3 => Ok(Phase::LookRight),
            4 => Ok(Phase::LockLeft),
            5 => Ok(Phase::LockRight),
            6 => Ok(Phase::BackOff),
            7 => Ok(Phase::Read),
            8 => Ok(Phase::FillHand),
            9 => Ok(Phase::Move),
            10 => Ok(Phase::Mark),
            11 => Ok(Phase::FreeLeft),
            12 => Ok(Phase::FreeRight),
            13 => Ok(Phase::Done),
            14..=255 => Err(UnknownPhase(number)),
        }
    }
}

impl From<Phase> for u8 {
    ghost from_gives = { λ phase number. number ≡ number_of phase };

    fn from(phase: Phase) -> Self {
        phase as u8
    }
}
