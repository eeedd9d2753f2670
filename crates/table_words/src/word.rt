// A word: its fields, what it is, and the word with a field changed.
#![tactic(auto, unfolding(rules::specs::Word::word_of))]

ghost use Rattle.std.specs.Prelude.{◌≡◌, true, ◌<◌};
ghost use Rattle.rules.specs.Word.{word_of, is_void, is_zero, is_lock, with_lock, with_virgin, with_change, filled_with};
ghost use Rattle.rules.specs.Word.{with_payload, alone_word};

pub fn remainder(w: u16) -> u16
    ensures { result ≡ (word_of w).remainder }
{
    w % 4096
}

pub fn occupied(w: u16) -> bool
    ensures { result ≡ (word_of w).occupied }
{
    w / 4096 % 2 == 1
}

pub fn virgin(w: u16) -> bool
    ensures { result ≡ (word_of w).virgin }
{
    w / 8192 % 2 == 1
}

pub fn change(w: u16) -> bool
    ensures { result ≡ (word_of w).change }
{
    w / 16384 % 2 == 1
}

pub fn lock(w: u16) -> bool
    ensures { result ≡ (word_of w).lock }
{
    w / 32768 % 2 == 1
}

#[tactic(auto, using(crate::specs::Change::void_test))]
pub fn is_void(w: u16) -> bool
    ensures { result ≡ is_void (word_of w) }
{
    w % 32768 == 0
}

#[tactic(auto, using(crate::specs::Change::zero_test))]
pub fn is_zero(w: u16) -> bool
    ensures { result ≡ is_zero (word_of w) }
{
    w == 0
}

#[tactic(auto, using(crate::specs::Change::lock_test))]
pub fn is_lock(w: u16) -> bool
    ensures { result ≡ is_lock (word_of w) }
{
    w == 32768
}

pub fn with_lock(w: u16, b: bool) -> u16
    ensures { word_of result ≡ with_lock b (word_of w) }
{
    w % 32768 + 32768 * u16::from(b)
}

pub fn with_change(w: u16, b: bool) -> u16
    ensures { word_of result ≡ with_change b (word_of w) }
{
    w / 32768 * 32768 + 16384 * u16::from(b) + w % 16384
}

#[tactic(auto, using(crate::specs::Change::with_virgin_lem))]
pub fn with_virgin(w: u16) -> u16
    ensures { word_of result ≡ with_virgin true (word_of w) }
{
    w / 16384 * 16384 + 8192 + w % 8192
}

// Occupied, with a remainder.
pub fn filled_with(x: u16, w: u16) -> u16
    requires { x < 4096 }
    ensures { word_of result ≡ filled_with x (word_of w) }
{
    w / 8192 * 8192 + 4096 + x
}

// The remainder and the change bit of v, the occupied, virgin and lock bits of w.
#[tactic(auto, using(crate::specs::Change::with_payload_lem))]
pub fn with_payload(v: u16, w: u16) -> u16
    ensures { word_of result ≡ with_payload (word_of v) (word_of w) }
{
    w / 32768 * 32768 + v / 16384 % 2 * 16384 + w / 4096 % 4 * 4096 + v % 4096
}

#[tactic(auto, using(crate::specs::Change::alone))]
pub fn alone_word(x: u16) -> u16
    requires { x < 4096 }
    ensures { word_of result ≡ alone_word x }
{
    28672 + x
}
