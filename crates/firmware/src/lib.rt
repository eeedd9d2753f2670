// The calls that the camera's firmware makes from C (01, Answers and their numbers): find, put and the fill figure.
// They require nothing, since nobody checks what C passes; include/woollydusk.h declares them.
#![tactic(auto)]

ghost use Rattle.std.specs.Prelude.{◌≡◌};
ghost use Rattle.rules.specs.Shape.{shape_of};
ghost use Rattle.rules.specs.Find.{find as spec_find};
ghost use Rattle.rules.specs.Put.{put as spec_put};
ghost use Rattle.rules.specs.Fill.{fill as spec_fill};
ghost use Rattle.table_packed.specs.Packed.{packed as packed_answer, gives, packed_leaves};

use table_find::fill::fill;
use table_find::find::find;
use table_packed::pack;
use table_put::put::put;

#[unsafe(no_mangle)]
pub extern "C" fn wd_find(m: u32, r: u32, table: &[u8], key: u32) -> u64
    ensures { result ≡ packed_answer (spec_find (shape_of m r) table.now key) }
{
    pack(find(m, r, table, key))
}

#[tactic(auto, using(table_packed::specs::Packed::packs))]
#[unsafe(no_mangle)]
pub extern "C" fn wd_put(m: u32, r: u32, table: &mut [u8], key: u32) -> u64
    ensures { gives result table.new ≡ packed_leaves (spec_put (shape_of m r) table.old key) }
{
    pack(put(m, r, table, key))
}

#[unsafe(no_mangle)]
pub extern "C" fn wd_fill(m: u32, r: u32, table: &[u8]) -> u64
    ensures { result ≡ packed_answer (spec_fill (shape_of m r) table.now) }
{
    pack(fill(m, r, table))
}
