// The call for one line (01, The frame program): a line's bytes in; passed over, ended, or the answers.
// `line` takes the numbers of a first line one by one, as every call does; `line_by` takes them as they were read.
ghost use Rattle.std.specs.Prelude.{◌≡◌, ℕ, ◌≤◌, length, ltb, is_some, IfSome};
ghost use Rattle.rules.specs.Lists.{all};
ghost use Rattle.rules.specs.Shape.{keys as shape_keys};
ghost use Rattle.frame_rules.specs.Lines.{first, keys_of, good_line};
ghost use Rattle.frame_rules.specs.Call.{line_says, left_alone};
ghost use Rattle.frame_rules.specs.Call as spec;
ghost use Rattle.frame_line.specs.Play.{line_keys};

use crate::play::play;
use frame_digits::read::Digits;
use frame_first::first::tasks_in_limits;
use frame_rounds::first::Seated;
use frame_rounds::turn::key_at;
use frame_rules::{First, LineAnswer};
use rules::{Refusal, Shape};
use table_words::shape::{GoodShape, good_table};

// Whether every key of a line of digits is in range.
fn good_keys(sh: GoodShape, line: Digits) -> bool
    ensures { result ≡ all (λ (key : ℕ). ltb key (shape_keys sh.shape)) (keys_of line.entry.text.now) }
{
    for i in 0..line.text.len() / 8 {
        if !sh.has_key(key_at(line, i)) {
            return false;
        }
    }
    true
}

// The line, if it is good: digits alone, a multiple of eight, at most 512 keys, each in range.
#[tactic(auto, unfolding(frame_rules::specs::Lines::good_line))]
fn good_line<'a>(sh: GoodShape, text: &'a [u8]) -> Option<Digits<'a>>
    ensures good { is_some result ≡ good_line sh.shape text.now }
    ensures text { IfSome result (λ line. line.text.now ≡ text.now) }
    ensures few { IfSome result (λ line. length line.text.now ≤ 4096) }
{
    let line = Digits::read(text)?;
    let good = text.len() % 8 == 0 && text.len() <= 4096 && good_keys(sh, line);
    good.then_some(line)
}

// A good line: 9 where it has more keys than there are slots.
#[tactic(auto, using(frame_pieces::specs::Limits::keys_count, crate::specs::Play::part_keys), unfolding(crate::specs::Play::line_keys, frame_rules::specs::Call::played))]
fn line_keys(
    f: Seated,
    sh: GoodShape,
    table: &mut [u8],
    line: Digits,
    slots: &mut [u8],
) -> Result<LineAnswer, Refusal>
    requires shape { sh.shape ≡ f.first.shape }
    requires few { length line.text.now ≤ 4096 }
    ensures { left_alone (line_says result) table.new slots.new
        ≡ line_keys f.first table.old (keys_of line.entry.text.now) slots.old }
{
    let count = line.text.len() / 8;
    if count > slots.len() {
        return Err(Refusal::TooFewSlots);
    }
    if play(f, sh, table, line, &mut slots[..count]) {
        Ok(LineAnswer::Answered(count))
    } else {
        Ok(LineAnswer::Ended)
    }
}

#[tactic(auto, using(frame_first::specs::Limits::tasks_limits), unfolding(frame_rules::specs::Call::line, crate::specs::Play::line_keys))]
pub fn line_by(
    f: First,
    table: &mut [u8],
    text: &[u8],
    slots: &mut [u8],
) -> Result<LineAnswer, Refusal>
    ensures { left_alone (line_says result) table.new slots.new
        ≡ spec.line f table.old text.now slots.old }
{
    let sh = good_table(f.shape.m, f.shape.r, table.len())?;
    if !tasks_in_limits(f.tasks) {
        return Err(Refusal::BadTask);
    }
    let Some(line) = good_line(sh, text) else {
        return Ok(LineAnswer::PassedOver);
    };
    line_keys(Seated { first: f }, sh, table, line, slots)
}

pub fn line(
    m: u32,
    r: u32,
    tasks: u32,
    table: &mut [u8],
    text: &[u8],
    slots: &mut [u8],
) -> Result<LineAnswer, Refusal>
    ensures { left_alone (line_says result) table.new slots.new
        ≡ spec.line (first m r tasks) table.old text.now slots.old }
{
    let f = First {
        shape: Shape { m, r },
        tasks,
    };
    line_by(f, table, text, slots)
}
