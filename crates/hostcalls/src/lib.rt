// Build and list for C programs on a host (01, Answers and their numbers), in the form of the firmware's calls.
// They require nothing, since nobody checks what C passes; include/woollydusk.h declares them.
#![tactic(auto, using(table_packed::specs::Packed::packs))]

ghost use Rattle.std.specs.Prelude.{◌≡◌};
ghost use Rattle.rules.specs.Shape.{shape_of};
ghost use Rattle.rules.specs.Build.{build as spec_build};
ghost use Rattle.rules.specs.Listing.{listing as spec_list};
ghost use Rattle.table_packed.specs.Packed.{gives, packed_leaves};

use table_list::list::list;
use table_packed::pack;
use table_put::build::build;

#[unsafe(no_mangle)]
pub extern "C" fn wd_build(m: u32, r: u32, table: &mut [u8], keys: &[u32]) -> u64
    ensures { gives result table.new
        ≡ packed_leaves (spec_build (shape_of m r) table.old keys.now) }
{
    pack(build(m, r, table, keys))
}

#[unsafe(no_mangle)]
pub extern "C" fn wd_list(m: u32, r: u32, table: &[u8], slots: &mut [u32]) -> u64
    ensures { gives result slots.new
        ≡ packed_leaves (spec_list (shape_of m r) table.now slots.old) }
{
    pack(list(m, r, table, slots))
}
