// What more than one phase makes of a task's record, each by the name of its definition (rules, Record and Phase). Each
// writes the record anew, as the phases do: the compiler makes less of that than of an assignment to a field, where it
// copies the rest of the record in pieces that fit no field.
ghost use Rattle.std.specs.Prelude.{◌≡◌};
ghost use Rattle.rules.specs.Phase.{moves_on};
ghost use Rattle.rules.specs.Record as spec;
ghost use Rattle.rules.specs.Record.{to_phase, with_answer};
ghost use Rattle.task_fits.specs.Phase.{number_of};
ghost use Rattle.task_phases.specs.Answer.{number_of as answer_number};

use crate::answer::Answer;
use rules::Task;
use task_fits::phase::Phase;

pub fn to_phase(t: Task, phase: Phase) -> Task
    ensures { result ≡ to_phase (number_of phase) t }
{
    Task {
        phase: phase.into(),
        ..t
    }
}

// A task begins again: back to its home.
pub fn again(t: Task) -> Task
    ensures { result ≡ spec.again t }
{
    to_phase(t, Phase::Home)
}

// The answer is known: the ends are freed next.
pub fn answered(t: Task, answer: Answer) -> Task
    ensures { result ≡ to_phase 11 (with_answer (answer_number answer) t) }
{
    Task {
        phase: Phase::FreeLeft.into(),
        answer: answer.into(),
        ..t
    }
}

// It is moved on until the hand is at the goal.
#[tactic(auto, unfolding(rules::specs::Phase::moves_on))]
pub fn moves_on(t: Task) -> Task
    ensures { result ≡ moves_on t }
{
    if t.hand == t.goal {
        to_phase(t, Phase::Mark)
    } else {
        to_phase(t, Phase::Move)
    }
}
