// The first line (01, The frame program), which begins the run or ends it.
ghost use Rattle.std.specs.Prelude.{◌≡◌, [], ◌≤◌, length};
ghost use Rattle.frame_rules.specs.Frame.{first_line};
ghost use Rattle.frame_run.specs.Closing.{closed, closing};

use crate::close::{Closed, error_at, run_at};
use frame_first::first::read_first;
use frame_rules::Stage;

// A bad first line prints EE and ends the run.
#[tactic(auto, unfolding(frame_rules::specs::Frame::first_line, frame_rules::specs::Lines::read_first, rules::specs::Lists::at_front))]
pub fn first_line(text: &[u8], out: &mut [u8]) -> Closed
    requires { 3 ≤ length out.old }
    ensures { closed result [] out.new ≡ closing (first_line [] text.now) out.old }
{
    match read_first(text) {
        Some(f) => Closed {
            run: run_at(Stage::Among(f)),
            wrote: 0,
        },
        None => error_at(Stage::Ended, out),
    }
}
