ghost use Rattle.std.specs.Prelude.{◌≡◌};
ghost use Rattle.outline_record.specs.Made.{boxes_made};
ghost use Rattle.capi.specs.Told.{told};
ghost use Rattle.capi.specs.Outlines.{made_told};

use crate::outlines::outline_of;
use crate::told::tell_count;
use outline_record::make_boxes;

// Checks an outline and makes the record of its boxes.
#[unsafe(no_mangle)]
pub extern "C" fn brothstitch_make(
    sizes: &[u32],
    coords: &[i32],
    scale: f64,
    mode: u32,
    boxes: &mut [i32],
    value: &mut u64,
) -> u32
    ensures { told made_told (boxes_made scale sizes.now coords.now boxes.old) ≡ ((result, value.new), boxes.new) }
{
    let outline = outline_of(scale, mode);
    let answer = make_boxes(outline, sizes, coords, boxes);
    tell_count(answer, value)
}
