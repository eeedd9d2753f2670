// A line's keys run through idle tasks (01, The frame program), with the limit of rounds.
ghost use Rattle.std.specs.Prelude.{◌≡◌, ◌≤◌, length};
ghost use Rattle.frame_rules.specs.Lines.{keys_of};
ghost use Rattle.frame_rules.specs.Rounds as spec;
ghost use Rattle.frame_line.specs.Play.{idle_desk, ran, ran_of};

use frame_digits::read::Digits;
use frame_rounds::first::Seated;
use frame_rounds::round::{Desk, Seat, all_answered, rounds};
use table_words::bytes::clear;
use table_words::shape::GoodShape;
use task_fits::record::no_task;

// How many rounds a line of n keys may take.
#[tactic(auto, using(table_words::specs::Range::homes_high, crate::specs::Play::limit_fits), unfolding(rules::specs::Shape::places, frame_rules::specs::Rounds::limit))]
fn limit(sh: GoodShape, n: usize) -> u64
    requires few { n ≤ 512 }
    ensures { result ≡ spec.limit sh.shape n }
{
    n as u64 * (8 * u64::from(sh.places()) + 66)
}

// Sixteen idle tasks, and no key taken.
fn idle_desk() -> Desk
    ensures { result ≡ idle_desk }
{
    let seat = Seat {
        task: no_task(),
        serving: 0,
    };
    Desk {
        seats: [seat; 16],
        taken: 0,
    }
}

// Whether all keys of the line are answered within the limit; their answers in key order.
pub fn play(f: Seated, sh: GoodShape, table: &mut [u8], line: Digits, answers: &mut [u8]) -> bool
    requires shape { sh.shape ≡ f.first.shape }
    requires as_many { length answers.old ≡ length (keys_of line.text.now) }
    requires few { length answers.old ≤ 512 }
    ensures { ran result table.new answers.new
        ≡ ran_of (keys_of line.entry.text.now) (spec.play f.first table.old (keys_of line.entry.text.now)) }
{
    let count = answers.len();
    clear(answers, count);
    let desk = rounds(f, limit(sh, count), table, line, answers, idle_desk());
    all_answered(f, line.text, desk)
}
