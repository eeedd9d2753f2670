// A key split into home and remainder, and joined again (01, Shape and layout).
ghost use Rattle.std.specs.Prelude.{◌≡◌, ◌<◌, ltb, is_ok, IfOk, IfErr};
ghost use Rattle.rules.specs.Shape.{keys};
ghost use Rattle.rules.specs.Entry as entry;
ghost use Rattle.rules.specs.Entry.{home_of, remainder_of, split};
ghost use Rattle.rules.specs.declared.Refusal.TheVariants.{BadKey};
ghost use Rattle.table_words.specs.Split.{InShape};

use crate::place::{Home, Place, home_of_place, place_of_home};
use crate::shape::GoodShape;
use rules::Refusal;

// The parts of a key of a shape: the place of its home, and its remainder.
#[derive(Clone, Copy, Debug, PartialEq, Eq)]
pub struct Parts {
    pub sh: GoodShape,
    pub home: Place,
    pub remainder: u16,
    pub ghost in_shape: { InShape sh.shape (record { home_place = home.0; remainder = remainder }) },
}

#[tactic(auto, using(crate::specs::Range::some_remainders), unfolding(rules::specs::Entry::home_of))]
pub fn home_of(sh: GoodShape, key: u32) -> Home
    ensures { result.0 ≡ home_of sh.shape key }
{
    Home(key / sh.remainders())
}

#[tactic(auto, using(crate::specs::Split::remainder_laws), unfolding(rules::specs::Entry::remainder_of))]
pub fn remainder_of(sh: GoodShape, key: u32) -> u16
    ensures { result ≡ remainder_of sh.shape key }
{
    (key % sh.remainders()) as u16
}

// The place of a key's home.
#[tactic(auto, using(crate::specs::Split::home_fits), unfolding(rules::specs::Entry::split))]
pub fn home_place(sh: GoodShape, key: u32) -> Place
    requires { key < keys sh.shape }
    ensures { result.0 ≡ (split sh.shape key).home_place }
{
    place_of_home(home_of(sh, key))
}

// A key that is out of range has no parts.
#[tactic(auto, using(crate::specs::Split::split_in_shape), unfolding(rules::specs::Entry::split))]
pub fn split(sh: GoodShape, key: u32) -> Result<Parts, Refusal>
    ensures good { is_ok result ≡ ltb key (keys sh.shape) }
    ensures ok { IfOk result (λ k. (k.sh ≡ sh) × (record { home_place = k.home.0; remainder = k.remainder } ≡ split sh.shape key)) }
    ensures err { IfErr result (λ n. n ≡ BadKey) }
{
    if sh.has_key(key) {
        Ok(Parts {
            sh,
            home: home_place(sh, key),
            remainder: remainder_of(sh, key),
        })
    } else {
        Err(Refusal::BadKey)
    }
}

#[tactic(auto, unfolding(rules::specs::Entry::join, rules::specs::Entry::home_of_place))]
pub fn join(k: Parts) -> u32
    ensures { result ≡ entry.join k.sh.shape (record { home_place = k.home.0; remainder = k.remainder }) }
{
    home_of_place(k.home).0 * k.sh.remainders() + u32::from(k.remainder)
}
