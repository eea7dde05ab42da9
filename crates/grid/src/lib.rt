// The whole-number test of a segment and of a ring, for any i32 ends and any place.
#![tactic(auto)]

ghost use Rattle.std.specs.Prelude.{◌≡◌, true, cond, ◌+◌, ◌*◌, ◌≤◌, length};
ghost use Rattle.grid.specs.Grid.{in_box, grid_result};
ghost use Rattle.grid.specs.Rings.{grid_inside, grid_ring};

use answers::Answer;
use boxes::Segment;
use cross::{Sign, cross_sign};
use rings::{check_ring, segment_at};

// What the test says of one segment.
#[derive(Clone, Copy, Debug, PartialEq, Eq)]
pub enum GridResult {
    OnSegment,
    Flips,
    Passes,
}

// Whether a segment that p is not on flips.
// A choice that two places make. No `From`: a bool means this only here.
fn told(flips: bool) -> GridResult
    ensures { result ≡ cond flips GridResult.Flips GridResult.Passes }
{
    if flips {
        GridResult::Flips
    } else {
        GridResult::Passes
    }
}

// A place in the segment's box lies between i32 numbers, so it is one.
fn near(seg: Segment, px: i64, py: i64) -> GridResult
    requires { in_box seg.a.x seg.a.y seg.b.x seg.b.y px py ≡ true }
    ensures { result ≡ grid_result seg px py }
{
    let a = seg.a;
    let b = seg.b;
    let x = px as i32;
    let y = py as i32;
    match cross_sign(a.x, a.y, b.x, b.y, x, y) {
        Sign::Zero => GridResult::OnSegment,
        Sign::Above => told(((y < a.y) != (y < b.y)) & (a.y < b.y)),
        Sign::Below => told(((y < a.y) != (y < b.y)) & !(a.y < b.y)),
    }
}

// The test on one segment, for any ends and any place. Below, above and right of the segment's box nothing flips; left of it
// a segment flips whose ends p stands between in height.
pub fn grid_test(seg: Segment, px: i64, py: i64) -> GridResult
    ensures { result ≡ grid_result seg px py }
{
    let lx = i64::from(seg.a.x);
    let ly = i64::from(seg.a.y);
    let rx = i64::from(seg.b.x);
    let ry = i64::from(seg.b.y);
    if ((py < ly) & (py < ry)) | ((ly < py) & (ry < py)) | ((lx < px) & (rx < px)) {
        return GridResult::Passes;
    }
    if (px < lx) & (px < rx) {
        return told((py < ly) != (py < ry));
    }
    near(seg, px, py)
}

// The test on the n segments of a ring that has them. For the outline, which checks all its rings once.
pub fn grid_in(coords: &[i32], n: usize, px: i64, py: i64, edge: bool) -> bool
    requires { n * 2 + 2 ≤ length coords.now }
    ensures { result ≡ grid_inside coords.now n px py edge }
{
    let mut answer = false;
    for i in 0..n {
        match grid_test(segment_at(coords, i), px, py) {
            GridResult::OnSegment => return edge,
            GridResult::Flips => answer = !answer,
            GridResult::Passes => {}
        }
    }
    answer
}

// The test on one ring, for any coordinates, count and place: checks 1 to 4 first.
pub fn grid_ring(coords: &[i32], points: usize, px: i64, py: i64, edge: bool) -> Answer
    ensures { result ≡ grid_ring coords.now points px py edge }
{
    check_ring(coords, points)?;
    Ok(grid_in(coords, points - 1, px, py, edge))
}
