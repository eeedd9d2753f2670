// A side of a place, known when the code is made: what goes to a side is written once, and the compiler makes it for
// the left and for the right.
ghost use Rattle.std.specs.Prelude.{◌≡◌};
ghost use Rattle.table_words.specs.Sides.{left, right, HasBeside, beside, is_ahead};
ghost use Rattle.table_words.specs.Sides as sides;

use crate::place::{Place, left_of, right_of};

pub trait Side {
    ghost side: { sides.Side };

    // The neighbour on this side.
    fn beside(p: Place) -> Place
        requires { HasBeside side p.0 }
        ensures { result.0 ≡ beside side p.0 };

    // Whether, going to this side from place a, place b is met later.
    fn is_ahead(a: Place, b: Place) -> bool
        ensures { result ≡ is_ahead side a.0 b.0 };
}

pub struct Left;

pub struct Right;

impl Side for Left {
    ghost side = { left };

    fn beside(p: Place) -> Place {
        left_of(p)
    }

    fn is_ahead(a: Place, b: Place) -> bool {
        b < a
    }
}

impl Side for Right {
    ghost side = { right };

    fn beside(p: Place) -> Place {
        right_of(p)
    }

    fn is_ahead(a: Place, b: Place) -> bool {
        a < b
    }
}
