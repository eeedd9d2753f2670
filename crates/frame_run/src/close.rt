// A line that is whole (01, The frame program): what it makes of the run, and prints. And the end of the input.
ghost use Rattle.std.specs.Prelude.{◌≡◌, [], ◌≤◌, length};
ghost use Rattle.frame_rules.specs.Frame.{Day, after, error, line_in, at_end};
ghost use Rattle.frame_rules.specs.Feed.{lent_buffers, run_of, day_of, held_line};
ghost use Rattle.frame_pieces.specs.Limits.{Fit};
ghost use Rattle.frame_pieces.specs.Feeding.{InOrder};
ghost use Rattle.frame_run.specs.Closing.{closed, closing, shown, printing};

use crate::first::first_line;
use crate::frame::{frame_line, used};
use crate::print::{error, print_table};
use frame_rules::{Run, Stage};

// The run that follows a line, and how much the line printed.
#[derive(Clone, Copy)]
pub struct Closed {
    pub run: Run,
    pub wrote: usize,
}

// A run at a stage, with no byte of a line held.
pub fn run_at(stage: Stage) -> Run
    ensures { result ≡ run_of stage }
{
    Run { stage, held: 0 }
}

// EE, and the run goes on at a stage.
#[tactic(auto, using(crate::specs::Printing::closed_as))]
pub fn error_at(stage: Stage, out: &mut [u8]) -> Closed
    requires { 3 ≤ length out.old }
    ensures { closed result [] out.new ≡ closing (after stage [] error) out.old }
{
    Closed {
        wrote: error(out),
        run: run_at(stage),
    }
}

// The line that is held. One too long is bad whatever it holds, as a line feed is, which no line has.
fn held_text<'a>(held: usize, line: &'a [u8]) -> &'a [u8]
    requires { 4096 ≤ length line.now }
    ensures { (d : Day) → line_in d result.now ≡ line_in d (held_line held line.now) }
{
    if held <= 4096 { &line[..held] } else { b"\n" }
}

pub fn close(run: Run, held: usize, line: &[u8], table: &mut [u8], out: &mut [u8]) -> Closed
    requires { InOrder run (lent_buffers line.now table.old out.old) }
    ensures { closed result table.new out.new
        ≡ closing (line_in (day_of run table.old) (held_line held line.now)) out.old }
{
    let text = held_text(held, line);
    match run.stage {
        Stage::AtFirst => first_line(text, out),
        Stage::Among(f) => frame_line(f, text, table, out),
        Stage::Ended => Closed {
            run: run_at(Stage::Ended),
            wrote: 0,
        },
    }
}

// All words from place 0; EE where there was no first line; nothing where the run has ended.
#[tactic(auto, using(crate::specs::Framing::among_limits), unfolding(frame_rules::specs::Frame::at_end, rules::specs::Lists::at_front))]
pub fn end(run: Run, table: &[u8], out: &mut [u8]) -> usize
    requires fit { Fit (day_of run table.now) }
    requires room { 65545 ≤ length out.old }
    ensures { shown result out.new
        ≡ printing (at_end (day_of run table.now)) out.old }
{
    match run.stage {
        Stage::AtFirst => error(out),
        Stage::Among(f) => print_table(&table[..used(f)], out),
        Stage::Ended => 0,
    }
}
