ghost use Rattle.std.specs.Prelude.{◌≡◌};
ghost use Rattle.stripes_test.specs.Test.{stripes_tested};
ghost use Rattle.capi.specs.Told.{is_set, point, answer_told};

use crate::told::{is_set, tell_answer};
use boxes::Point;
use stripes_find::StripeIndex;
use stripes_test::stripes_test;

// The ring test by any stripe index.
#[unsafe(no_mangle)]
pub extern "C" fn brothstitch_ring_stripes(
    coords: &[i32],
    points: usize,
    least: f64,
    height: f64,
    stripes: &[u32],
    list: &[u32],
    x: f64,
    y: f64,
    edge: u32,
    value: &mut u64,
) -> u32
    ensures { answer_told (stripes_tested coords.now points least height stripes.now list.now (point x y) (is_set edge)) ≡ (result, value.new) }
{
    let p = Point { x, y };
    let allowed = is_set(edge);
    let index = StripeIndex {
        least,
        height,
        stripes,
        list,
    };
    tell_answer(stripes_test(coords, points, index, p, allowed), value)
}
