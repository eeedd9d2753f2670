// The shape that a call's bare numbers say, and what follows from it (01, Shape and layout).
// Every call makes it afresh: nothing of it is kept.
ghost use Rattle.std.specs.Prelude.{◌≡◌, ◌*◌, ltb, is_ok, IfOk, IfErr};
ghost use Rattle.rules.specs.Record as fields;
ghost use Rattle.rules.specs.Shape as spec;
ghost use Rattle.rules.specs.Shape.{shape_of, in_range, good_table, right_guard, keys};
ghost use Rattle.rules.specs.declared.Refusal.TheVariants.{BadShape};
ghost use Rattle.table_words.specs.Range.{InRange};

use crate::place::Place;
use rules::{Refusal, Shape};

// A shape in range: m is 1 to 20 and r 1 to 12.
#[derive(Clone, Copy, Debug, PartialEq, Eq)]
pub struct GoodShape {
    pub shape: Shape,
    pub ghost in_range: { InRange shape },
}

impl GoodShape {
    #[tactic(auto, using(crate::specs::Range::homes_high), unfolding(rules::specs::Shape::homes))]
    pub fn homes(self) -> u32
        ensures { result ≡ spec.homes self.shape }
    {
        1u32 << self.shape.m
    }

    #[tactic(auto, using(crate::specs::Range::remainders_high), unfolding(rules::specs::Shape::remainders))]
    pub fn remainders(self) -> u32
        ensures { result ≡ spec.remainders self.shape }
    {
        1u32 << self.shape.r
    }

    // How many places there are, both guards included.
    #[tactic(auto, using(crate::specs::Range::homes_high), unfolding(rules::specs::Shape::places))]
    pub fn places(self) -> u32
        ensures { result ≡ spec.places self.shape }
    {
        self.homes() + 2
    }

    #[tactic(auto, using(crate::specs::Range::homes_high), unfolding(rules::specs::Shape::right_guard))]
    pub fn right_guard(self) -> Place
        ensures { result.0 ≡ right_guard self.shape }
    {
        Place(self.homes() + 1)
    }

    // There may be 2^32 keys: that number needs more than 32 bits.
    #[tactic(auto, using(crate::specs::Range::keys_high), unfolding(rules::specs::Shape::keys))]
    pub fn has_key(self, key: u32) -> bool
        ensures { result ≡ ltb key (keys self.shape) }
    {
        u64::from(key) < 1u64 << (self.shape.m + self.shape.r)
    }
}

pub fn left_guard() -> Place
    ensures { result.0 ≡ 0 }
{
    Place(0)
}

pub fn shape_of(m: u32, r: u32) -> Shape
    ensures { result ≡ shape_of m r }
{
    Shape { m, r }
}

// A number from one to another, both included.
pub fn within(low: u32, high: u32, x: u32) -> bool
    ensures { result ≡ fields.within low high x }
{
    low <= x && x <= high
}

// m is 1 to 20 and r 1 to 12.
#[tactic(auto, using(crate::specs::Range::in_range_lem), unfolding(rules::specs::Shape::in_range))]
pub fn good_shape(m: u32, r: u32) -> Result<GoodShape, Refusal>
    ensures good { is_ok result ≡ in_range (shape_of m r) }
    ensures ok { IfOk result (λ sh. sh.shape ≡ shape_of m r) }
    ensures err { IfErr result (λ n. n ≡ BadShape) }
{
    if within(1, 20, m) && within(1, 12, r) {
        Ok(GoodShape {
            shape: shape_of(m, r),
        })
    } else {
        Err(Refusal::BadShape)
    }
}

// Two bytes for each place.
#[tactic(auto, unfolding(rules::specs::Shape::good_table, rules::specs::Shape::fits_length))]
pub fn good_table(m: u32, r: u32, len: usize) -> Result<GoodShape, Refusal>
    ensures good { is_ok result ≡ good_table (shape_of m r) len }
    ensures ok { IfOk result (λ sh. sh.shape ≡ shape_of m r) }
    ensures size { IfOk result (λ sh. len ≡ 2 * spec.places sh.shape) }
    ensures err { IfErr result (λ n. n ≡ BadShape) }
{
    let sh = good_shape(m, r)?;
    if len == 2 * (sh.places() as usize) {
        Ok(sh)
    } else {
        Err(Refusal::BadShape)
    }
}
