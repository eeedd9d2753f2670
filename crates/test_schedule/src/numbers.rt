// Numbers as six digits say them: m, r and how many records. The first line's are within their limits; an action's own
// may be any, and the call refuses them.
ghost use Rattle.std.specs.Prelude.{◌+◌, ◌≤◌, length};

use crate::record::two;
use frame_digits::read::Digits;
use rules::Shape;
use table_words::shape::shape_of;

#[derive(Clone, Copy)]
pub struct Numbers {
    pub shape: Shape,
    pub records: u8,
}

// The six digits from a place of a line on.
pub fn numbers_at(line: Digits, at: usize) -> Numbers
    requires { at + 6 ≤ length line.text.now }
{
    Numbers {
        shape: shape_of(two(line, at).into(), two(line, at + 2).into()),
        records: two(line, at + 4),
    }
}
