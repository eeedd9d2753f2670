// The frame program (01): reads standard input to its end and writes standard output. What it prints is the crate
// frame_feed's; here are only the reads, the writes and the buffers. A read or a write that fails ends it with its error.
#![tactic(auto)]

use frame_feed::feed::{begin, feed};
use frame_feed::finish::finish;
use frame_rules::Run;
use std::io;
use std::io::Read;

// The first n bytes of the output, if it has so many.
fn write_front(rt: &impl Print, out: &[u8], n: usize) -> io::Result<bool> {
    match out.get(0..n) {
        Some(front) => {
            rt.write_all(front)?;
            Ok(true)
        }
        None => Ok(false),
    }
}

// The lines of a piece, one feed each: as many feeds as the piece has bytes are enough. There is no run to go on with
// where a call was refused.
fn feed_piece(
    rt: &impl Print,
    begun: Run,
    piece: &[u8],
    line: &mut [u8],
    table: &mut [u8],
    out: &mut [u8],
) -> io::Result<Option<Run>> {
    let mut run = begun;
    let mut at = 0;
    for _ in 0..piece.len() {
        if piece.len() <= at {
            return Ok(Some(run));
        }
        let Ok(fed) = feed(run, piece, at, line, table, out) else {
            return Ok(None);
        };
        if !write_front(rt, out, fed.wrote)? {
            return Ok(None);
        }
        run = fed.run;
        at = fed.at;
    }
    Ok(Some(run))
}

// The last line may lack its line feed; then the table is printed.
fn last(
    rt: &impl Print,
    run: Run,
    line: &[u8],
    table: &mut [u8],
    out: &mut [u8],
) -> io::Result<()> {
    if let Ok(n) = finish(run, line, table, out) {
        write_front(rt, out, n)?;
    }
    Ok(())
}

// Nothing says that the input ends, so the reads are counted to a number that no run uses up.
fn main(rt: HostRuntime) -> io::Result<()> {
    let mut piece = [0u8; 65536];
    let mut line = [0u8; 4096];
    let mut table = [0u8; 32772];
    let mut out = [0u8; 66570];
    let mut run = begin();
    for _ in 0..u64::MAX {
        let n = rt.stdin().read(&mut piece)?;
        if n == 0 {
            return last(&rt, run, &line, &mut table, &mut out);
        }
        let fed = feed_piece(&rt, run, &piece[0..n], &mut line, &mut table, &mut out)?;
        let Some(next) = fed else {
            return Ok(());
        };
        run = next;
    }
    Ok(())
}
