// A run of a schedule: its table and its records. The first line begins it, the second may say the words, and each
// further line is an action: a step, a give, or a record stored as it is, by its length.
ghost use Rattle.std.specs.Prelude.{◌≡◌, IfNone, take};
ghost use Rattle.test_schedule.specs.Begins.{begun, words_read, words_told};

use crate::numbers::{Numbers, numbers_at};
use crate::record::{Shown, record_in, two};
use frame_digits::read::Digits;
use frame_first::first::read_first;
use frame_first::table::read_table;
use rules::{Refusal, Task};
use table_words::shape::GoodShape;
use task_fits::record::no_task;
use task_records::{give, step};

// As many as two digits can say, so that each call is lent as many as its numbers say. It refuses more than 16.
const RECORDS: usize = 255;

// The bytes of the largest table that a first line can ask for.
const TABLE: usize = 32772;

// The first line's numbers, and what the lines so far have made of the table and the records. Of the table's bytes
// the shape uses the first ones.
#[derive(Clone, Copy)]
pub struct Run {
    first: Numbers,
    used: usize,
    table: [u8; TABLE],
    tasks: [Task; RECORDS],
}

impl Run {
    /// The first line. None where it is bad.
    pub fn begun(line: &[u8]) -> Option<Run>
        ensures { result ≡ begun line.now }
    {
        let f = read_first(line)?;
        let sh = GoodShape { shape: f.shape };
        Some(Run {
            first: Numbers {
                shape: f.shape,
                records: f.tasks as u8,
            },
            used: 2 * sh.places() as usize,
            table: [0; TABLE],
            tasks: [no_task(); RECORDS],
        })
    }

    /// The second line: empty, which leaves the words zero, or all the table's words. Whether it is good.
    #[tactic(auto, unfolding(crate::specs::Begins::words_read, crate::specs::Begins::words_from, crate::specs::Begins::with_words))]
    pub fn read_words(&mut self, line: &[u8]) -> bool
        ensures { words_told result self.new ≡ words_read self.old line.now }
    {
        let used = self.used.min(TABLE);
        line.is_empty() || read_table(self.first.shape, line, &mut self.table[..used])
    }

    /// The table's bytes, two a word, low byte first.
    pub fn table(&self) -> &[u8]
        ensures { result.now ≡ take self.now.used self.now.table }
    {
        &self.table[..self.used.min(TABLE)]
    }

    /// An action. None where the line is malformed, which is passed over.
    pub fn act(&mut self, line: &[u8]) -> Option<Shown>
        ensures { IfNone result (self.new ≡ self.old) }
    {
        if line.len() < 2 {
            return None;
        }
        let digits = Digits::read(line)?;
        let i = usize::from(two(digits, 0));
        let first = self.first;
        let done = match line.len() {
            2 => self.step(first, i),
            8 => self.step(numbers_at(digits, 2), i),
            10 => self.give(first, digits.number(2, 8), i),
            16 => self.give(numbers_at(digits, 10), digits.number(2, 8), i),
            40 => self.store(i, record_in(digits)),
            _ => return None,
        };
        let task = self.record(i);
        Some(Shown { done, task })
    }

    fn step(&mut self, by: Numbers, i: usize) -> Result<(), Refusal> {
        let used = self.used.min(TABLE);
        let table = &mut self.table[..];
        let tasks = &mut self.tasks[..];
        let lent = &mut tasks[..usize::from(by.records)];
        step(by.shape.m, by.shape.r, &mut table[..used], lent, i)
    }

    fn give(&mut self, by: Numbers, key: u32, i: usize) -> Result<(), Refusal> {
        let lent = &mut self.tasks[..usize::from(by.records)];
        give(by.shape.m, by.shape.r, key, lent, i)
    }

    fn store(&mut self, i: usize, task: Task) -> Result<(), Refusal> {
        let lent = &mut self.tasks[..usize::from(self.first.records)];
        let stored = lent.get_mut(i).ok_or(Refusal::BadTask)?;
        *stored = task;
        Ok(())
    }

    // All zero where the first line has no such task.
    fn record(&self, i: usize) -> Task {
        self.tasks[..usize::from(self.first.records)]
            .get(i)
            .copied()
            .unwrap_or_else(no_task)
    }
}
