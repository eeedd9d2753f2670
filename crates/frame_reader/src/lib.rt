// The line reader: it holds the lent bytes and the point it has reached. A function over the struct is thin, since the
// work is in `length_from`, over the slice and a number. Callers take `next_line`.
#![tactic(auto)]

ghost use Rattle.std.specs.Prelude.{◌≡◌, ◌+◌, drop};
ghost use Rattle.frame_rules.specs.Feed.{line_length};

#[derive(Clone, Copy)]
pub struct Reader<'a> {
    pub src: &'a [u8],
    pub at: usize,
}

// How many bytes stand before the first line feed from `at` on, or before the end.
fn length_from(src: &[u8], at: usize) -> usize
    ensures { result ≡ line_length (drop at src.now) }
{
    if src.len() <= at {
        return 0;
    }
    let rest = &src[at..];
    rest.iter().position(|b| *b == b'\n').unwrap_or(rest.len())
}

pub fn reader_at<'a>(src: &'a [u8], at: usize) -> Reader<'a>
    ensures { (result.src ≡ src.entry) × (result.at ≡ at) }
{
    Reader { src, at }
}

// The reader at the end of its line: at the line feed, or at the end of the bytes.
pub fn past_line<'a>(r: Reader<'a>) -> Reader<'a>
    ensures { (result.src ≡ r.entry.src)
        × (result.at ≡ r.entry.at + line_length (drop r.entry.at r.entry.src.now)) }
{
    Reader {
        at: r.at + length_from(r.src, r.at),
        ..r
    }
}

// The place where the line at `at` ends; beyond the end of the bytes, `at` itself.
pub fn next_line(src: &[u8], at: usize) -> usize
    ensures { result ≡ at + line_length (drop at src.now) }
{
    past_line(reader_at(src, at)).at
}
