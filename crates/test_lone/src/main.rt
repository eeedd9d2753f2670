// The lone task of document 01 (Examples): 35 alone in a table of shape 3, 4, and a task with 31, step by step.
// One line for each step: its number, the phase after it, and each place whose word is not zero. Last, the answer.
#![tactic(auto)]

use rules::Task;
use std::io;
use task_fits::phase::Phase;
use task_fits::record::no_task;
use task_step::give::give;
use task_step::step::step;

fn show_step(rt: &impl Print, n: u8, t: Task, table: &[u8]) -> io::Result<()> {
    print!(rt; "step {n}, phase {},", t.phase)?;
    for (place, pair) in table.chunks_exact(2).enumerate() {
        let word = u16::from_le_bytes([pair[0], pair[1]]);
        if word != 0 {
            print!(rt; " {place}: {word:04X}")?;
        }
    }
    println!(rt)
}

// At most 20 steps, each shown, until the task is done. A refused step is the last thing shown.
fn run(rt: &impl Print, table: &mut [u8], first: Task) -> io::Result<()> {
    let mut t = first;
    for n in 1u8..=20 {
        if matches!(Phase::try_from(t.phase), Ok(Phase::Done)) {
            return println!(rt; "answer {}", t.answer);
        }
        match step(3, 4, table, t) {
            Ok(next) => {
                show_step(rt, n, next, table)?;
                t = next;
            }
            Err(refusal) => return println!(rt; "task: {refusal}"),
        }
    }
    Ok(())
}

fn main(rt: HostRuntime) -> io::Result<()> {
    let mut table: [u8; 20] = [0; 20];
    table[8] = 0x05;
    table[9] = 0x70;
    match give(3, 4, 0x31, no_task()) {
        Ok(t) => run(&rt, &mut table, t),
        Err(refusal) => println!(rt; "task: {refusal}"),
    }
}
