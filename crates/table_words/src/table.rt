// A table that is lent to be read as a whole: a shape in range, and two bytes for each of its places.
ghost use Rattle.std.specs.Prelude.{◌≡◌, ◌*◌, ◌<◌, length, is_ok, IfOk, IfErr};
ghost use Rattle.rules.specs.Word.{word_of};
ghost use Rattle.rules.specs.Bytes.{words_of};
ghost use Rattle.rules.specs.Shape.{shape_of, places, good_table};
ghost use Rattle.rules.specs.Table.{at};
ghost use Rattle.rules.specs.declared.Refusal.TheVariants.{BadShape};

use crate::bytes::word_at;
use crate::place::Place;
use crate::shape::{GoodShape, good_table};
use rules::Refusal;

#[derive(Clone, Copy)]
pub struct Table<'a> {
    pub sh: GoodShape,
    pub bytes: &'a [u8],
    pub ghost size: { length bytes.now ≡ 2 * places sh.shape },
}

impl<'a> Table<'a> {
    pub fn lent(m: u32, r: u32, bytes: &'a [u8]) -> Result<Table<'a>, Refusal>
        ensures good { is_ok result ≡ good_table (shape_of m r) (length bytes.now) }
        ensures ok { IfOk result (λ t. (t.sh.shape ≡ shape_of m r) × (t.bytes.now ≡ bytes.now)) }
        ensures err { IfErr result (λ n. n ≡ BadShape) }
    {
        let sh = good_table(m, r, bytes.len())?;
        Ok(Table { sh, bytes })
    }

    pub fn word(self, p: Place) -> u16
        requires { p.0 < places self.sh.shape }
        ensures { word_of result ≡ at (words_of self.entry.bytes.now) p.0 }
    {
        word_at(self.bytes, p)
    }
}
