// The record of no task, and whether a record is at rest (01, Tasks and their steps).
ghost use Rattle.std.specs.Prelude.{◌≡◌};
ghost use Rattle.rules.specs.Record.{no_task, at_rest};

use crate::phase::Phase;
use rules::Task;

// All zero: idle, with no key.
pub fn no_task() -> Task
    ensures { result ≡ no_task }
{
    Task {
        key: 0,
        phase: Phase::Idle.into(),
        left: 0,
        right: 0,
        hand: 0,
        goal: 0,
        mark: 0,
        answer: 0,
    }
}

// Idle or done.
#[tactic(auto, unfolding(rules::specs::Record::at_rest))]
pub fn at_rest(t: Task) -> bool
    ensures { result ≡ at_rest t }
{
    matches!(Phase::try_from(t.phase), Ok(Phase::Idle | Phase::Done))
}
