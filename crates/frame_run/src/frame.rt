// A line of keys (01, The frame program): its answers, or EE.
ghost use Rattle.std.specs.Prelude.{◌≡◌, true, [], ◌≤◌, length};
ghost use Rattle.frame_rules.specs.Lines.{in_limits};
ghost use Rattle.frame_rules.specs.Frame.{frame_line, used};
ghost use Rattle.frame_rules.specs.Call.{line_says};
ghost use Rattle.frame_run.specs.Closing.{closed, closing, few_answers, line_came};

use crate::close::{Closed, error_at, run_at};
use crate::print::print_answers;
use frame_line::line::line_by;
use frame_rules::{First, LineAnswer, Stage};
use rules::Refusal;
use table_words::shape::GoodShape;

// How many of the table's bytes a first line's shape uses.
#[tactic(auto, using(frame_first::specs::Limits::in_limits_lem, frame_first::specs::Limits::used_fits), unfolding(frame_rules::specs::Frame::used))]
pub fn used(f: First) -> usize
    requires { in_limits f ≡ true }
    ensures value { result ≡ used f }
    ensures fits { result ≤ 32772 }
{
    2 * GoodShape { shape: f.shape }.places() as usize
}

// What the line came to, printed. A call that is made as it is here is never refused.
fn print_line(
    f: First,
    answer: Result<LineAnswer, Refusal>,
    slots: [u8; 512],
    out: &mut [u8],
) -> Closed
    requires few { few_answers (line_says answer) ≡ true }
    requires room { 1025 ≤ length out.old }
    ensures { closed result [] out.new
        ≡ closing (line_came f (line_says answer) slots []) out.old }
{
    match answer {
        Ok(LineAnswer::PassedOver) => error_at(Stage::Among(f), out),
        Ok(LineAnswer::Answered(k)) => Closed {
            wrote: print_answers(&slots[..k], out),
            run: run_at(Stage::Among(f)),
        },
        Ok(LineAnswer::Ended) | Err(_) => error_at(Stage::Ended, out),
    }
}

// The call for one line on the used part, and what it came to, printed.
pub fn frame_line(f: First, text: &[u8], table: &mut [u8], out: &mut [u8]) -> Closed
    requires limits { in_limits f ≡ true }
    requires size { length table.old ≡ 32772 }
    requires room { 1025 ≤ length out.old }
    ensures { closed result table.new out.new
        ≡ closing (frame_line f table.old text.now) out.old }
{
    let mut slots = [0u8; 512];
    let answer = line_by(f, &mut table[..used(f)], text, &mut slots);
    print_line(f, answer, slots, out)
}
