ghost use Rattle.std.specs.Prelude.{◌≡◌};
ghost use Rattle.cast_test.specs.Test.{scan_tested};
ghost use Rattle.capi.specs.Told.{is_set, point, answer_told};

use crate::told::{is_set, tell_answer};
use boxes::Point;
use cast_test::scan_test;

// The ring test by looking at every segment.
#[unsafe(no_mangle)]
pub extern "C" fn brothstitch_ring_scan(
    coords: &[i32],
    points: usize,
    x: f64,
    y: f64,
    edge: u32,
    value: &mut u64,
) -> u32
    ensures { answer_told (scan_tested coords.now points (point x y) (is_set edge)) ≡ (result, value.new) }
{
    let p = Point { x, y };
    let allowed = is_set(edge);
    tell_answer(scan_test(coords, points, p, allowed), value)
}
