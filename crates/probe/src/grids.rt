// The whole-number test, and the sign of the cross.
ghost use Rattle.std.specs.Prelude.{◌≡◌};
ghost use Rattle.cross.specs.Cross.{cross, sign_of};
ghost use Rattle.grid.specs.Grid.{grid_result};
ghost use Rattle.grid.specs.Rings.{grid_ring};
ghost use Rattle.probe.specs.Numbers.{answer_numbers};
ghost use Rattle.probe.specs.Boxes.{segment};
ghost use Rattle.probe.specs.Casts.{sign_number, grid_number};

use crate::answer::put_answer;
use crate::rects::segment_of;
use cross::{Sign, cross_sign};
use grid::{GridResult, grid_ring, grid_test};

// 0 passes, 1 flips, 2 on. Here and below a match and no `From`: neither the enum nor u32 is of this crate, and only it numbers them.
fn number_of(said: GridResult) -> u32
    ensures { result ≡ grid_number said }
{
    match said {
        GridResult::Passes => 0,
        GridResult::Flips => 1,
        GridResult::OnSegment => 2,
    }
}

// 0 below, 1 zero, 2 above.
fn sign_number(sign: Sign) -> u32
    ensures { result ≡ sign_number sign }
{
    match sign {
        Sign::Below => 0,
        Sign::Zero => 1,
        Sign::Above => 2,
    }
}

#[unsafe(no_mangle)]
pub extern "C" fn probe_cross_sign(ax: i32, ay: i32, bx: i32, by: i32, px: i32, py: i32) -> u32
    ensures { result ≡ sign_number (sign_of (cross ax ay bx by px py)) }
{
    sign_number(cross_sign(ax, ay, bx, by, px, py))
}

#[unsafe(no_mangle)]
pub extern "C" fn probe_grid_test(ax: i32, ay: i32, bx: i32, by: i32, x: i64, y: i64) -> u32
    ensures { result ≡ grid_number (grid_result (segment ax ay bx by) x y) }
{
    number_of(grid_test(segment_of(ax, ay, bx, by), x, y))
}

#[unsafe(no_mangle)]
pub extern "C" fn probe_grid_ring(
    coords: &[i32],
    points: usize,
    x: i64,
    y: i64,
    edge: bool,
    place: &mut usize,
    said: &mut u32,
) -> u32
    ensures { answer_numbers (grid_ring coords.now points x y edge) ≡ (result, place.new, said.new) }
{
    put_answer(grid_ring(coords, points, x, y, edge), place, said)
}
