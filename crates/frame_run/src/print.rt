// What is printed, at the front of a lent buffer: EE, a line's answers, and the table's words, each with its line feed.
ghost use Rattle.std.specs.Prelude.{◌≡◌, ◌+◌, ◌*◌, ◌≤◌, length};
ghost use Rattle.frame_rules.specs.Digits.{digits_of, word_digits};
ghost use Rattle.frame_rules.specs.Frame.{printed};
ghost use Rattle.frame_rules.specs.Frame as frame;
ghost use Rattle.frame_run.specs.Closing.{shown, printing};

use frame_digits::print::{put_bytes, put_words};

// EE.
#[tactic(auto, unfolding(rules::specs::Lists::at_front))]
pub fn error(out: &mut [u8]) -> usize
    requires { 3 ≤ length out.old }
    ensures { shown result out.new ≡ printing frame.error out.old }
{
    out[..3].copy_from_slice(b"EE\n");
    3
}

// Answers, two digits each.
pub fn print_answers(answers: &[u8], out: &mut [u8]) -> usize
    requires room { 2 * length answers.now + 1 ≤ length out.old }
    requires few { length answers.now ≤ 512 }
    ensures { shown result out.new ≡ printing (printed (digits_of answers.now)) out.old }
{
    put_bytes(answers, out);
    let n = 2 * answers.len();
    out[n] = b'\n';
    n + 1
}

// The words of a table.
#[tactic(auto, using(crate::specs::Printing::table_printed))]
pub fn print_table(table: &[u8], out: &mut [u8]) -> usize
    requires few { length table.now ≤ 32772 }
    requires room { 2 * length table.now + 1 ≤ length out.old }
    ensures { shown result out.new
        ≡ printing (printed (word_digits table.now)) out.old }
{
    put_words(table, out);
    let digits = 4 * (table.len() / 2);
    out[digits] = b'\n';
    digits + 1
}
