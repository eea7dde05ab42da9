ghost use Rattle.std.specs.Prelude.{◌≡◌};
ghost use Rattle.tree_find.specs.Find.{tree_tested};
ghost use Rattle.capi.specs.Told.{is_set, point, answer_told};

use crate::told::{is_set, tell_answer};
use boxes::Point;
use tree_find::tree_test;

// The ring test by the bytes of any packed tree.
#[unsafe(no_mangle)]
pub extern "C" fn brothstitch_ring_tree(
    coords: &[i32],
    points: usize,
    bytes: &[u8],
    x: f64,
    y: f64,
    edge: u32,
    value: &mut u64,
) -> u32
    ensures { answer_told (tree_tested coords.now points bytes.now (point x y) (is_set edge)) ≡ (result, value.new) }
{
    let p = Point { x, y };
    let allowed = is_set(edge);
    tell_answer(tree_test(coords, points, bytes, p, allowed), value)
}
