ghost use Rattle.std.specs.Prelude.{◌≡◌};
ghost use Rattle.grid.specs.Rings.{grid_ring};
ghost use Rattle.capi.specs.Told.{is_set, answer_told};

use crate::told::{is_set, tell_answer};
use grid::grid_ring;

// The whole-number ring test.
#[unsafe(no_mangle)]
pub extern "C" fn brothstitch_ring_grid(
    coords: &[i32],
    points: usize,
    x: i64,
    y: i64,
    edge: u32,
    value: &mut u64,
) -> u32
    ensures { answer_told (grid_ring coords.now points x y (is_set edge)) ≡ (result, value.new) }
{
    let allowed = is_set(edge);
    tell_answer(grid_ring(coords, points, x, y, allowed), value)
}
