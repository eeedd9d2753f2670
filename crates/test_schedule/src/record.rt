// A task's record as digits: key 8, phase 2, left 6, right 6, hand 6, goal 6, mark 2, answer 2.
// A line that is shown has a refusal's number before them, two digits.
ghost use Rattle.std.specs.Prelude.{◌≡◌, ◌+◌, ◌≤◌, length, Some};
ghost use Rattle.test_schedule.specs.Record.{two, record_in};
ghost use Rattle.test_schedule.specs.Shown.{shown, shown_bytes};

use frame_digits::print::put_bytes;
use frame_digits::read::Digits;
use rules::{Refusal, Task};
use std::fmt;

// What two digits write.
pub fn two(line: Digits, at: usize) -> u8
    requires { at + 2 ≤ length line.text.now }
    ensures { result ≡ two line.entry.text.now at }
{
    line.number(at, 2) as u8
}

// The record of a line that stores one, behind the task number.
#[tactic(auto, using(crate::specs::Record::fields_at))]
pub fn record_in(line: Digits) -> Task
    requires { length line.text.now ≡ 40 }
    ensures { result ≡ record_in line.entry.text.now }
{
    Task {
        key: line.number(2, 8),
        phase: two(line, 10),
        left: line.number(12, 6),
        right: line.number(18, 6),
        hand: line.number(24, 6),
        goal: line.number(30, 6),
        mark: two(line, 36),
        answer: two(line, 38),
    }
}

// What an action shows: the number of its refusal, 0 where it is accepted, and the record as it now stands.
#[derive(Clone, Copy)]
pub struct Shown {
    pub done: Result<(), Refusal>,
    pub task: Task,
}

// Places have six digits: a stored record's are below 2^24, and steps keep them below 2^21.
impl Shown {
    fn bytes(self) -> [u8; 20]
        ensures { result ≡ shown_bytes self }
    {
        let t = self.task;
        let refusal = match self.done {
            Ok(()) => 0,
            Err(n) => u8::from(n),
        };
        let [k3, k2, k1, k0] = t.key.to_be_bytes();
        let [_, l2, l1, l0] = t.left.to_be_bytes();
        let [_, r2, r1, r0] = t.right.to_be_bytes();
        let [_, h2, h1, h0] = t.hand.to_be_bytes();
        let [_, g2, g1, g0] = t.goal.to_be_bytes();
        [
            refusal, k3, k2, k1, k0, t.phase, l2, l1, l0, r2, r1, r0, h2, h1, h0, g2, g1, g0,
            t.mark, t.answer,
        ]
    }
}

// Its forty digits at once: to format each number apart takes three times the instructions of a whole line.
impl fmt::Display for Shown {
    ghost output = { λ s. Some (shown s) };

    fn fmt<W: fmt::Write>(&self, f: &mut fmt::Formatter<W>) -> fmt::Result {
        let mut digits = [0; 40];
        put_bytes(&self.bytes(), &mut digits);
        f.write_str(str::from_utf8(&digits).unwrap_or_default())
    }
}

#[cfg(test)]
mod tests {
    use super::*;

    #[test]
    fn two_digits_from_a_place(rt: HostRuntime) {
        let Some(line) = Digits::read(b"0aF9") else {
            return assert!(rt; false, "these are digits");
        };
        assert_eq!(rt; line.text.len(), 4);
        assert_eq!(rt; two(line, 0), 0x0A);
        assert_eq!(rt; two(line, 1), 0xAF);
        assert_eq!(rt; two(line, 2), 0xF9);
    }

    #[test]
    fn record_behind_its_task(rt: HostRuntime) {
        let Some(line) = Digits::read(b"0589ABCDEF0D0000010000020000030000FF0302") else {
            return assert!(rt; false, "these are digits");
        };
        assert_eq!(rt; line.text.len(), 40);
        let stored = Task {
            key: 0x89ABCDEF,
            phase: 13,
            left: 1,
            right: 2,
            hand: 3,
            goal: 0xFF,
            mark: 3,
            answer: 2,
        };
        assert_eq!(rt; record_in(line), stored);
    }
}
