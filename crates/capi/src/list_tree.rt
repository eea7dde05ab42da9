ghost use Rattle.std.specs.Prelude.{◌≡◌};
ghost use Rattle.tree_find.specs.Find.{tree_listed};
ghost use Rattle.capi.specs.Told.{told};
ghost use Rattle.capi.specs.Lists.{tree_told};

use crate::told::tell_count;
use tree_find::tree_list;

// The same segments, by the bytes of any packed tree and in its order.
#[unsafe(no_mangle)]
pub extern "C" fn brothstitch_list_tree(
    coords: &[i32],
    points: usize,
    bytes: &[u8],
    y: f64,
    out: &mut [u32],
    value: &mut u64,
) -> u32
    ensures { told tree_told (tree_listed coords.now points bytes.now y out.old) ≡ ((result, value.new), out.new) }
{
    let answer = tree_list(coords, points, bytes, y, out);
    tell_count(answer, value)
}
