// Boxes and the boxes of segments. A box goes over as its least x and y and its greatest x and y, and
// a point, a side or a box comes back through references.
ghost use Rattle.std.specs.Prelude.{◌≡◌};
ghost use Rattle.boxes.specs.Boxes.{holds, meets, side_at};
ghost use Rattle.boxes.specs.Segments.{point_of, rect_of};
ghost use Rattle.boxes.specs.Quads.{box, chosen, quad_bounds};
ghost use Rattle.probe.specs.Boxes.{point, i32_point, segment, corner_of, side_of, point_numbers, side_numbers, rect_numbers, chosen_number};

use boxes::{I32Point, Point, Rect, Segment, Side, choose_quad, quad_bounds};

pub fn point_of(x: f64, y: f64) -> Point
    ensures { result ≡ point x y }
{
    Point { x, y }
}

pub fn segment_of(ax: i32, ay: i32, bx: i32, by: i32) -> Segment
    ensures { result ≡ segment ax ay bx by }
{
    Segment {
        a: I32Point { x: ax, y: ay },
        b: I32Point { x: bx, y: by },
    }
}

fn rect_of(x0: f64, y0: f64, x1: f64, y1: f64) -> Rect
    ensures { result ≡ box x0 y0 x1 y1 }
{
    Rect {
        min: Point { x: x0, y: y0 },
        max: Point { x: x1, y: y1 },
    }
}

fn put_point(p: Point, x: &mut f64, y: &mut f64)
    ensures { point_numbers p ≡ (x.new, y.new) }
{
    *x = p.x;
    *y = p.y;
}

fn put_side(s: Side, ax: &mut f64, ay: &mut f64, bx: &mut f64, by: &mut f64)
    ensures { side_numbers s ≡ (ax.new, ay.new, bx.new, by.new) }
{
    *ax = s.a.x;
    *ay = s.a.y;
    *bx = s.b.x;
    *by = s.b.y;
}

fn put_rect(b: Rect, x0: &mut f64, y0: &mut f64, x1: &mut f64, y1: &mut f64)
    ensures { rect_numbers b ≡ (x0.new, y0.new, x1.new, y1.new) }
{
    *x0 = b.min.x;
    *y0 = b.min.y;
    *x1 = b.max.x;
    *y1 = b.max.y;
}

#[unsafe(no_mangle)]
pub extern "C" fn probe_contains_point(x0: f64, y0: f64, x1: f64, y1: f64, x: f64, y: f64) -> bool
    ensures { result ≡ holds (box x0 y0 x1 y1) (point x y) }
{
    rect_of(x0, y0, x1, y1).contains_point(point_of(x, y))
}

#[unsafe(no_mangle)]
pub extern "C" fn probe_intersects_rect(
    x0: f64,
    y0: f64,
    x1: f64,
    y1: f64,
    u0: f64,
    v0: f64,
    u1: f64,
    v1: f64,
) -> bool
    ensures { result ≡ meets (box x0 y0 x1 y1) (box u0 v0 u1 v1) }
{
    rect_of(x0, y0, x1, y1).intersects_rect(rect_of(u0, v0, u1, v1))
}

// The corners by number: 0 north-west, 1 south-west, 2 south-east, 3 and above north-east.
fn corner(b: Rect, which: u32) -> Point
    ensures { result ≡ corner_of b which }
{
    match which {
        0 => b.nw(),
        1 => b.sw(),
        2 => b.se(),
        _ => b.ne(),
    }
}

// The sides by number: 0 south, 1 east, 2 north, 3 and above west.
fn side(b: Rect, which: u32) -> Side
    ensures { result ≡ side_of b which }
{
    match which {
        0 => b.south(),
        1 => b.east(),
        2 => b.north(),
        _ => b.west(),
    }
}

#[unsafe(no_mangle)]
pub extern "C" fn probe_corner(
    x0: f64,
    y0: f64,
    x1: f64,
    y1: f64,
    which: u32,
    x: &mut f64,
    y: &mut f64,
)
    ensures { point_numbers (corner_of (box x0 y0 x1 y1) which) ≡ (x.new, y.new) }
{
    put_point(corner(rect_of(x0, y0, x1, y1), which), x, y);
}

#[unsafe(no_mangle)]
pub extern "C" fn probe_side(
    x0: f64,
    y0: f64,
    x1: f64,
    y1: f64,
    which: u32,
    ax: &mut f64,
    ay: &mut f64,
    bx: &mut f64,
    by: &mut f64,
)
    ensures { side_numbers (side_of (box x0 y0 x1 y1) which) ≡ (ax.new, ay.new, bx.new, by.new) }
{
    put_side(side(rect_of(x0, y0, x1, y1), which), ax, ay, bx, by);
}

#[unsafe(no_mangle)]
pub extern "C" fn probe_segment_at(
    x0: f64,
    y0: f64,
    x1: f64,
    y1: f64,
    index: i64,
    ax: &mut f64,
    ay: &mut f64,
    bx: &mut f64,
    by: &mut f64,
)
    ensures { side_numbers (side_at (box x0 y0 x1 y1) index) ≡ (ax.new, ay.new, bx.new, by.new) }
{
    put_side(rect_of(x0, y0, x1, y1).segment_at(index), ax, ay, bx, by);
}

// The quadrant's number, or 4 where the segment stays.
#[unsafe(no_mangle)]
pub extern "C" fn probe_choose_quad(
    x0: f64,
    y0: f64,
    x1: f64,
    y1: f64,
    u0: f64,
    v0: f64,
    u1: f64,
    v1: f64,
) -> usize
    ensures { result ≡ chosen_number (chosen (box x0 y0 x1 y1) (box u0 v0 u1 v1)) }
{
    choose_quad(rect_of(x0, y0, x1, y1), rect_of(u0, v0, u1, v1)).unwrap_or(4)
}

#[unsafe(no_mangle)]
pub extern "C" fn probe_segment_rect(
    ax: i32,
    ay: i32,
    bx: i32,
    by: i32,
    x0: &mut f64,
    y0: &mut f64,
    x1: &mut f64,
    y1: &mut f64,
)
    ensures { rect_numbers (rect_of (segment ax ay bx by)) ≡ (x0.new, y0.new, x1.new, y1.new) }
{
    put_rect(segment_of(ax, ay, bx, by).rect(), x0, y0, x1, y1);
}

#[unsafe(no_mangle)]
pub extern "C" fn probe_quad_bounds(
    x0: f64,
    y0: f64,
    x1: f64,
    y1: f64,
    q: usize,
    u0: &mut f64,
    v0: &mut f64,
    u1: &mut f64,
    v1: &mut f64,
)
    ensures { rect_numbers (quad_bounds (box x0 y0 x1 y1) q) ≡ (u0.new, v0.new, u1.new, v1.new) }
{
    put_rect(quad_bounds(rect_of(x0, y0, x1, y1), q), u0, v0, u1, v1);
}

#[unsafe(no_mangle)]
pub extern "C" fn probe_i32_point(ax: i32, ay: i32, x: &mut f64, y: &mut f64)
    ensures { point_numbers (point_of (i32_point ax ay)) ≡ (x.new, y.new) }
{
    put_point(I32Point { x: ax, y: ay }.point(), x, y);
}
