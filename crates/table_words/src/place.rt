// A home number and a place are counted apart (01, Shape and layout): the one conversion and its way back, and the
// ways from place to place. Elsewhere a place is made of a number only by a record's field or a loop's cursor.
ghost use Rattle.std.specs.Prelude.{◌≡◌, ◌+◌, ◌-◌, ◌<◌};
ghost use Rattle.rules.specs.Entry.{place_of_home, home_of_place};

#[derive(Clone, Copy, Debug, PartialEq, Eq, PartialOrd, Ord)]
pub struct Home(pub u32);

#[derive(Clone, Copy, Debug, PartialEq, Eq, PartialOrd, Ord)]
pub struct Place(pub u32);

// The one conversion: it adds the guard.
#[tactic(auto, unfolding(rules::specs::Entry::place_of_home))]
pub fn place_of_home(home: Home) -> Place
    requires { home.0 < 4294967295 }
    ensures { result.0 ≡ place_of_home home.0 }
{
    Place(home.0 + 1)
}

// Its way back: the guard is taken off.
#[tactic(auto, unfolding(rules::specs::Entry::home_of_place))]
pub fn home_of_place(p: Place) -> Home
    requires { 0 < p.0 }
    ensures { result.0 ≡ home_of_place p.0 }
{
    Home(p.0 - 1)
}

// The neighbour to the left.
pub fn left_of(p: Place) -> Place
    requires { 0 < p.0 }
    ensures { result.0 ≡ p.0 - 1 }
{
    Place(p.0 - 1)
}

// The neighbour to the right.
pub fn right_of(p: Place) -> Place
    requires { p.0 < 4294967295 }
    ensures { result.0 ≡ p.0 + 1 }
{
    Place(p.0 + 1)
}

// The place n places to the right.
pub fn right_by(p: Place, n: u32) -> Place
    requires { p.0 + n < 4294967296 }
    ensures { result.0 ≡ p.0 + n }
{
    Place(p.0 + n)
}

// How many places lie between two.
pub fn places_between(l: Place, r: Place) -> u32
    requires { l.0 < r.0 }
    ensures { result ≡ r.0 - (l.0 + 1) }
{
    r.0 - (l.0 + 1)
}
