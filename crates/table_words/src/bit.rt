// A bit as a number, for the counts and the cursors of the crates above.
ghost use Rattle.std.specs.Prelude.{◌≡◌, ◌<◌};
ghost use Rattle.rules.specs.Lists.{bit_of};

pub fn bit_of(b: bool) -> u32
    ensures { (result ≡ bit_of b) × (result < 2) }
{
    u32::from(b)
}
