ghost use Rattle.std.specs.Prelude.{◌≡◌};
ghost use Rattle.outline_check.specs.Outline.{outline_of};
ghost use Rattle.outline_ring.specs.RingIndex.{lent};
ghost use Rattle.outline_ask.specs.Inside.{inside_of};
ghost use Rattle.capi.specs.Told.{is_set, point, answer_told};
ghost use Rattle.capi.specs.Outlines.{mode_of};

use crate::outlines::outline_of;
use crate::told::{is_set, tell_answer};
use boxes::Point;
use outline_ask::inside;
use outline_ring::Indexes;

// The inside question, through any indexes.
#[unsafe(no_mangle)]
pub extern "C" fn brothstitch_inside(
    sizes: &[u32],
    coords: &[i32],
    boxes: &[i32],
    scale: f64,
    mode: u32,
    table: &[u64],
    spans: &[f64],
    stripes: &[u32],
    list: &[u32],
    bytes: &[u8],
    x: f64,
    y: f64,
    edge: u32,
    value: &mut u64,
) -> u32
    ensures { answer_told (inside_of (outline_of scale (mode_of mode)) sizes.now coords.now boxes.now (lent table.now spans.now stripes.now list.now bytes.now) (point x y) (is_set edge)) ≡ (result, value.new) }
{
    let outline = outline_of(scale, mode);
    let p = Point { x, y };
    let allowed = is_set(edge);
    let indexes = Indexes {
        table,
        spans,
        stripes,
        list,
        bytes,
    };
    tell_answer(
        inside(outline, sizes, coords, boxes, indexes, p, allowed),
        value,
    )
}
