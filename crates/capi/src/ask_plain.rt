ghost use Rattle.std.specs.Prelude.{◌≡◌};
ghost use Rattle.outline_check.specs.Outline.{outline_of};
ghost use Rattle.outline_agree.specs.Plain.{plain_inside};
ghost use Rattle.capi.specs.Told.{is_set, point, answer_told};
ghost use Rattle.capi.specs.Outlines.{mode_of};

use crate::outlines::outline_of;
use crate::told::{is_set, tell_answer};
use boxes::Point;
use outline_plain::inside_plain;

// The inside question by the outline's points alone.
#[unsafe(no_mangle)]
pub extern "C" fn brothstitch_inside_plain(
    sizes: &[u32],
    coords: &[i32],
    scale: f64,
    mode: u32,
    x: f64,
    y: f64,
    edge: u32,
    value: &mut u64,
) -> u32
    ensures { answer_told (plain_inside (outline_of scale (mode_of mode)) sizes.now coords.now (point x y) (is_set edge)) ≡ (result, value.new) }
{
    let outline = outline_of(scale, mode);
    let p = Point { x, y };
    let allowed = is_set(edge);
    tell_answer(inside_plain(outline, sizes, coords, p, allowed), value)
}
