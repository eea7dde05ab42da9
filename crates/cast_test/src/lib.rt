// The ring test with floats: what one segment makes of the answer, and the test of a whole ring by scan.
#![tactic(auto)]

ghost use Rattle.std.specs.Prelude.{◌≡◌, ◌+◌, ◌*◌, ◌<◌, ◌≤◌, length};
ghost use Rattle.answers.specs.Answers.{said};
ghost use Rattle.rings.specs.Ring.{wide};
ghost use Rattle.cast_test.specs.Test.{cast_at, scan_of, scan_tested};
ghost use Rattle.cast_test.specs.Inner.Steps.{step_of};

use answers::Answer;
use boxes::Point;
use floats::is_finite;
use rays::{RaycastResult, cast};
use rings::{check_ring, holds_height};
use std::ops::ControlFlow;

// What `raycast` says of segment i. For the crates above, which have checked the ring.
#[tactic(auto, unfolding(rays::specs::Raycast::raycast_of))]
pub fn cast_at(ring: &[i32], i: usize, p: Point) -> RaycastResult
    requires { i * 2 + 3 < length ring.now }
    ensures { result ≡ cast_at (wide ring.now) i p }
{
    let ax = ring[i * 2];
    let ay = ring[i * 2 + 1];
    let bx = ring[i * 2 + 2];
    let by = ring[i * 2 + 3];
    cast(ax, ay, bx, by, p.x, p.y)
}

// What segment i makes of what is known so far: how the answer stands by the segments before, broken off once the point is on
// one of them. For the crates above, which have checked the ring.
#[tactic(auto, unfolding(crate::specs::Inner::Steps::step_of))]
pub fn step(
    ring: &[i32],
    i: usize,
    p: Point,
    seen: ControlFlow<bool, bool>,
) -> ControlFlow<bool, bool>
    requires { i * 2 + 3 < length ring.now }
    ensures { result ≡ step_of (wide ring.now) i p seen }
{
    let ControlFlow::Continue(inside) = seen else {
        return seen;
    };
    if !holds_height(ring, i, p.y) {
        return seen;
    }
    match cast_at(ring, i, p) {
        RaycastResult::On => ControlFlow::Break(inside),
        RaycastResult::Inside => ControlFlow::Continue(!inside),
        RaycastResult::Neither => seen,
    }
}

// The ring test of the first n segments, by scan. For the crates above, which have checked the ring and the point.
pub fn scan_in(ring: &[i32], n: usize, p: Point, edge: bool) -> Answer
    requires { n * 2 + 2 ≤ length ring.now }
    ensures { result ≡ said (scan_of (wide ring.now) n p edge) }
{
    let mut inside = false;
    for i in 0..n {
        match step(ring, i, p, ControlFlow::Continue(inside)) {
            ControlFlow::Continue(now) => inside = now,
            ControlFlow::Break(_) => return Ok(edge),
        }
    }
    Ok(inside)
}

// The ring test by scan, of one ring and any point.
pub fn scan_test(coords: &[i32], points: usize, p: Point, edge: bool) -> Answer
    ensures { result ≡ scan_tested coords.now points p edge }
{
    check_ring(coords, points)?;
    if is_finite(p.x) & is_finite(p.y) {
        scan_in(coords, points - 1, p, edge)
    } else {
        Ok(false)
    }
}
