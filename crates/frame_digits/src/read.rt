// Digits read: what a digit is worth, whether a text is all digits, and the number that some digits write.
// Both letter cases are read.
ghost use Rattle.std.specs.Prelude.{◌≡◌, true, ◌+◌, ◌^◌, ◌≤◌, ◌<◌, length, take, drop, is_some, IfSome};
ghost use Rattle.rules.specs.Lists.{all};
ghost use Rattle.frame_rules.specs.Digits.{is_digit};
ghost use Rattle.frame_rules.specs.Digits as digits;
ghost use Rattle.frame_digits.specs.Read.{digit};

// What a digit is worth, if the byte is one.
#[tactic(auto, using(std::proofs::lemmas::Bool::Decides::nat_tests), unfolding(crate::specs::Read::digit, frame_rules::specs::Digits::is_digit, frame_rules::specs::Digits::worth))]
pub fn digit(c: u8) -> Option<u8>
    ensures { result ≡ digit c }
{
    match c {
        b'0'..=b'9' => Some(c - b'0'),
        b'A'..=b'F' => Some(c - b'A' + 10),
        b'a'..=b'f' => Some(c - b'a' + 10),
        _ => None,
    }
}

pub fn all_digits(s: &[u8]) -> bool
    ensures { result ≡ all is_digit s.now }
{
    s.iter().all(|c| digit(*c).is_some())
}

// A text of digits alone.
#[derive(Clone, Copy)]
pub struct Digits<'a> {
    pub text: &'a [u8],
    pub ghost good: { all is_digit text.now ≡ true },
}

impl<'a> Digits<'a> {
    // The text, if each of its bytes is a digit.
    pub fn read(text: &'a [u8]) -> Option<Digits<'a>>
        ensures good { is_some result ≡ all is_digit text.now }
        ensures text { IfSome result (λ d. d.text.now ≡ text.now) }
    {
        if all_digits(text) {
            Some(Digits { text })
        } else {
            None
        }
    }

    // The number that n digits write, from the place `at` on, the highest first.
    pub fn number(self, at: usize, n: usize) -> u32
        requires few { n ≤ 8 }
        requires inside { at + n ≤ length self.text.now }
        ensures value { result ≡ digits.number (take n (drop at self.entry.text.now)) }
        ensures low { result < 16 ^ n }
    {
        let part = &self.text[at..at + n];
        let mut k = 0;
        for c in part {
            k = 16 * k + u32::from(digit(*c).unwrap());
        }
        k
    }
}
