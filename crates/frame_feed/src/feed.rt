// Feeding (01, The frame program): a run begins, and takes the rest of one line from a piece of its input.
ghost use Rattle.std.specs.Prelude.{◌≡◌, drop};
ghost use Rattle.frame_rules.specs.declared.Stage.TheVariants.{AtFirst};
ghost use Rattle.frame_rules.specs.Feed.{lent_buffers, run_of, fed_says, feed_good, feed as spec_feed};
ghost use Rattle.frame_pieces.specs.Feeding.{InOrder};

use frame_buffers::check::check;
use frame_buffers::hold::hold;
use frame_reader::next_line;
use frame_rules::{Fed, Run, Stage};
use frame_run::close::{close, run_at};
use rules::Refusal;

// A run at its first line, with nothing held. The table that is lent to it starts as 32,772 zero bytes.
pub fn begin() -> Run
    ensures { result ≡ run_of AtFirst }
{
    run_at(Stage::AtFirst)
}

// A line's bytes at the point reached are held; where a line feed follows them, that is a line. A point beyond the
// piece's end is taken for its end.
fn feed_good(
    run: Run,
    piece: &[u8],
    at: usize,
    line: &mut [u8],
    table: &mut [u8],
    out: &mut [u8],
) -> Fed
    requires { InOrder run (lent_buffers line.old table.old out.old) }
    ensures { fed_says (Ok result) (lent_buffers line.new table.new out.new)
        ≡ feed_good run (drop at piece.now) at
        (lent_buffers line.old table.old out.old) }
{
    let from = at.min(piece.len());
    let end = next_line(piece, from);
    let held = hold(line, run.held, &piece[from..end]);
    if end < piece.len() {
        let c = close(run, held, line, table, out);
        return Fed {
            run: c.run,
            at: at + (end - from) + 1,
            wrote: c.wrote,
        };
    }
    Fed {
        run: Run { held, ..run },
        at: at + (end - from),
        wrote: 0,
    }
}

#[tactic(auto, using(crate::specs::Feeding::feed_ready, crate::specs::Feeding::feed_accepted, crate::specs::Feeding::feed_refused))]
pub fn feed(
    run: Run,
    piece: &[u8],
    at: usize,
    line: &mut [u8],
    table: &mut [u8],
    out: &mut [u8],
) -> Result<Fed, Refusal>
    ensures { fed_says result (lent_buffers line.new table.new out.new)
        ≡ spec_feed run piece.now at
        (lent_buffers line.old table.old out.old) }
{
    check(run, line.len(), table.len(), out.len())?;
    Ok(feed_good(run, piece, at, line, table, out))
}
