// The raycast of a segment.
ghost use Rattle.std.specs.Prelude.{◌≡◌};
ghost use Rattle.rays.specs.Raycast.{raycast_of};
ghost use Rattle.probe.specs.Boxes.{point, segment};
ghost use Rattle.probe.specs.Casts.{cast_number};

use crate::rects::{point_of, segment_of};
use rays::{RaycastResult, raycast};

// 0 neither, 1 inside, 2 on.
#[unsafe(no_mangle)]
pub extern "C" fn probe_raycast(ax: i32, ay: i32, bx: i32, by: i32, x: f64, y: f64) -> u32
    ensures { result ≡ cast_number (raycast_of (segment ax ay bx by) (point x y)) }
{
    match raycast(segment_of(ax, ay, bx, by), point_of(x, y)) {
        RaycastResult::Neither => 0,
        RaycastResult::Inside => 1,
        RaycastResult::On => 2,
    }
}
