// A first line whose tasks each have one of the sixteen seats (01, The frame program).
ghost use Rattle.std.specs.Prelude.{◌≤◌};

use frame_rules::First;

#[derive(Clone, Copy)]
pub struct Seated {
    pub first: First,
    pub ghost few: { first.tasks ≤ 16 },
}
