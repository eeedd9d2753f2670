// The end of the input (01, The frame program): a last line that lacks its line feed, and then the table.
ghost use Rattle.std.specs.Prelude.{◌≡◌};
ghost use Rattle.frame_rules.specs.Feed.{lent_buffers, last_line, finish_says, finish_good, finish as spec_finish};
ghost use Rattle.frame_pieces.specs.Feeding.{InOrder};
ghost use Rattle.frame_run.specs.Closing.{closed, last_closing};

use frame_buffers::check::check;
use frame_rules::Run;
use frame_run::close::{Closed, close, end};
use rules::Refusal;

// A line that is begun is a line.
#[tactic(auto, unfolding(frame_run::specs::Closing::last_closing))]
fn last_line(run: Run, line: &[u8], table: &mut [u8], out: &mut [u8]) -> Closed
    requires { InOrder run (lent_buffers line.now table.old out.old) }
    ensures { closed result table.new out.new
        ≡ last_closing run (lent_buffers line.now table.old out.old) }
{
    if run.held == 0 {
        Closed { run, wrote: 0 }
    } else {
        close(run, run.held, line, table, out)
    }
}

fn finish_good(run: Run, line: &[u8], table: &mut [u8], out: &mut [u8]) -> usize
    requires { InOrder run (lent_buffers line.now table.old out.old) }
    ensures { finish_says (Ok result) (lent_buffers line.now table.new out.new)
        ≡ finish_good (lent_buffers line.now table.old out.old)
        (last_line run (lent_buffers line.now table.old out.old)) }
{
    let c = last_line(run, line, table, out);
    let n = c.wrote;
    let more = end(c.run, table, &mut out[n..]);
    n + more
}

#[tactic(auto, using(crate::specs::Finishing::call_ready, crate::specs::Finishing::call_accepted, crate::specs::Finishing::call_refused))]
pub fn finish(run: Run, line: &[u8], table: &mut [u8], out: &mut [u8]) -> Result<usize, Refusal>
    ensures { finish_says result (lent_buffers line.now table.new out.new)
        ≡ spec_finish run (lent_buffers line.now table.old out.old) }
{
    check(run, line.len(), table.len(), out.len())?;
    Ok(finish_good(run, line, table, out))
}
