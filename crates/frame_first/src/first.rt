// The first line (01, The frame program): m, r and the number of tasks, two digits each, within their limits.
// Whoever is handed these numbers in another way tests them by the same functions.
ghost use Rattle.std.specs.Prelude.{◌≡◌, true, length};
ghost use Rattle.rules.specs.Lists.{all};
ghost use Rattle.frame_rules.specs.Digits.{is_digit};
ghost use Rattle.frame_rules.specs.Lines.{first_of, shape_in_limits, tasks_in_limits, in_limits, read_first};

use frame_digits::read::Digits;
use frame_rules::First;
use rules::Shape;
use table_words::shape::{shape_of, within};

// m is 1 to 14, and r 1 to 12.
#[tactic(auto, unfolding(frame_rules::specs::Lines::shape_in_limits))]
pub fn shape_in_limits(sh: Shape) -> bool
    ensures { result ≡ shape_in_limits sh }
{
    within(1, 14, sh.m) && within(1, 12, sh.r)
}

// There are 1 to 16 tasks.
#[tactic(auto, unfolding(frame_rules::specs::Lines::tasks_in_limits))]
pub fn tasks_in_limits(n: u32) -> bool
    ensures { result ≡ tasks_in_limits n }
{
    within(1, 16, n)
}

#[tactic(auto, unfolding(frame_rules::specs::Lines::in_limits))]
pub fn in_limits(f: First) -> bool
    ensures { result ≡ in_limits f }
{
    shape_in_limits(f.shape) && tasks_in_limits(f.tasks)
}

// What six digits say.
#[tactic(auto, unfolding(frame_rules::specs::Lines::first_of))]
fn first_of(line: Digits) -> First
    requires six { length line.text.now ≡ 6 }
    ensures { result ≡ first_of line.entry.text.now }
{
    First {
        shape: shape_of(line.number(0, 2), line.number(2, 2)),
        tasks: line.number(4, 2),
    }
}

#[tactic(auto, unfolding(frame_rules::specs::Lines::read_first, frame_rules::specs::Lines::good_first))]
pub fn read_first(line: &[u8]) -> Option<First>
    ensures { result ≡ read_first line.now }
{
    if line.len() != 6 {
        return None;
    }
    let f = first_of(Digits::read(line)?);
    in_limits(f).then_some(f)
}
