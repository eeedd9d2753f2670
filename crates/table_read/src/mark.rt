// The mark that a key gets at its goal (01, phase 10), and the byte that a record keeps of it.
ghost use Rattle.std.specs.Prelude.{◌≡◌};
ghost use Rattle.table_read.specs.Mark.{number};

// What the key is in its group: neither new nor larger than all of it, its new last key, or the first key of a new one.
#[derive(Clone, Copy, PartialEq, Eq)]
pub enum Mark {
    Within,
    Last,
    NewGroup,
}

impl From<Mark> for u8 {
    ghost from_gives = { λ m byte. byte ≡ number m };

    fn from(mark: Mark) -> u8 {
        match mark {
            Mark::Within => 0,
            Mark::Last => 1,
            Mark::NewGroup => 2,
        }
    }
}
