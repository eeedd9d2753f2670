// Plays a schedule of gives, steps and stored records, read from standard input line by line (docs/SCHEDULE.md). Each
// action prints its refusal and the record that it leaves; the end prints the words.
#![tactic(auto)]

mod lines;
mod waiting;

use crate::lines::Lines;
use crate::waiting::Waiting;
use frame_digits::print::put_words;
use std::io::{self, Read, Write};
use test_schedule::run::Run;

// What a bad line prints.
const BAD: &[u8] = b"EE\n";

// The first line and the second. None where one of them is bad or missing; behind a bad first line none is read.
fn begun<R: Read + Drop>(input: &mut Lines<R>) -> io::Result<Option<Run>> {
    let Some(first) = input.next()? else {
        return Ok(None);
    };
    let Some(mut run) = Run::begun(first) else {
        return Ok(None);
    };
    let Some(second) = input.next()? else {
        return Ok(None);
    };
    Ok(run.read_words(second).then_some(run))
}

// Each action up to the end of the input. What waits is written before more input is waited for. Nothing says that the
// input ends, so the lines are counted to a number that no run uses up.
fn actions<R: Read + Drop>(
    run: &mut Run,
    input: &mut Lines<R>,
    out: &mut impl Write,
) -> io::Result<()> {
    for _ in 0..u64::MAX {
        if !input.has_line() {
            out.flush()?;
        }
        let Some(line) = input.next()? else {
            return Ok(());
        };
        match run.act(line) {
            Some(shown) => writeln!(out, "{shown}")?,
            None => out.write_all(BAD)?,
        }
    }
    Ok(())
}

fn words(out: &mut impl Write, table: &[u8]) -> io::Result<()> {
    for part in table.chunks(256) {
        let mut digits = [0; 512];
        let n = part.len().min(256);
        put_words(&part[..n], &mut digits);
        out.write_all(&digits[..2 * n])?;
    }
    out.write_all(b"\n")
}

fn play(rt: &HostRuntime) -> io::Result<()> {
    let mut input = Lines::new(rt.stdin());
    let mut out = Waiting::new(rt);
    match begun(&mut input)? {
        Some(mut run) => {
            actions(&mut run, &mut input, &mut out)?;
            words(&mut out, run.table())?;
        }
        None => out.write_all(BAD)?,
    }
    out.flush()
}

// A read or a write that fails ends the run, and no error is told. Before a read all that waits is written.
fn main(rt: HostRuntime) {
    let _ = play(&rt);
}
