// Digits printed into lent bytes, capitals only: a byte as two digits, bytes, and the words of a table.
// What is printed stands at the front; what is behind it stays.
ghost use Rattle.std.specs.Prelude.{◌≡◌, ◌+◌, ◌*◌, ◌/◌, ◌%◌, ◌≤◌, ◌<◌, length, set};
ghost use Rattle.rules.specs.Lists.{at_front};
ghost use Rattle.frame_rules.specs.Digits.{digits_of, word_digits};
ghost use Rattle.frame_rules.specs.Digits as digits;

// The capital digit of a number below 16.
#[tactic(auto, using(std::proofs::lemmas::Bool::Decides::nat_tests), unfolding(frame_rules::specs::Digits::glyph))]
pub fn glyph(d: u8) -> u8
    requires { d < 16 }
    ensures { result ≡ digits.glyph d }
{
    match d {
        0..=9 => b'0' + d,
        _ => b'A' + d - 10,
    }
}

// A byte as two digits at two places.
pub fn put_byte(out: &mut [u8], at: usize, b: u8)
    requires { at + 1 < length out.old }
    ensures { out.new
        ≡ set (set out.old at (digits.glyph (b / 16))) (at + 1) (digits.glyph (b % 16)) }
{
    out[at] = glyph(b / 16);
    out[at + 1] = glyph(b % 16);
}

// Bytes of two digits each.
pub fn put_bytes(bytes: &[u8], out: &mut [u8])
    requires { 2 * length bytes.now ≤ length out.old }
    ensures { out.new ≡ at_front (digits_of bytes.now) out.old }
{
    for (i, b) in bytes.iter().enumerate() {
        put_byte(out, 2 * i, *b);
    }
}

// The words of a table, four digits each: in the table a word's low byte comes first.
pub fn put_words(table: &[u8], out: &mut [u8])
    requires { 2 * length table.now ≤ length out.old }
    ensures { out.new ≡ at_front (word_digits table.now) out.old }
{
    let (words, _) = table.as_chunks::<2>();
    for (i, [low, high]) in words.iter().enumerate() {
        put_byte(out, 4 * i, *high);
        put_byte(out, 4 * i + 2, *low);
    }
}
