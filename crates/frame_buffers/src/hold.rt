// The bytes of a line that is begun, held in a lent buffer until the line is whole: 4,096 at most.
ghost use Rattle.std.specs.Prelude.{◌≡◌, ◌++◌, ◌+◌, ◌≤◌, length, take, drop};
ghost use Rattle.frame_rules.specs.Feed.{held_after, line_after};
ghost use Rattle.frame_buffers.specs.Hold.{holding};

// How many bytes are held afterwards; more than 4,096 stands for a line that is too long.
#[tactic(auto, unfolding(frame_rules::specs::Feed::held_after, frame_rules::specs::Feed::line_after))]
pub fn hold(line: &mut [u8], held: usize, more: &[u8]) -> usize
    requires { 4096 ≤ length line.old }
    ensures { holding result line.new
        ≡ holding (held_after held (length more.now))
        (line_after line.old held more.now) }
{
    if held <= 4096 && more.len() <= 4096 - held {
        line[held..held + more.len()].copy_from_slice(more);
        return held + more.len();
    }
    4097
}
