// `raycast`, in the order of its eight steps. The inner promises are equalities with definitions of
// specs/. The public ones say that the answer is the eight steps', which have one answer only
// (`raycast_unique` of proofs/Rest.antt), and give a definition that computes it.
#![tactic(auto)]

ghost use Rattle.std.specs.Prelude.{◌≡◌, ◌&&◌, if◌then◌else◌};
ghost use Rattle.std.specs.Float.Ieee.{eq};
ghost use Rattle.rays.specs.Raycast.{at, within, steep, last_steps, lift, cast_of, ends, Raycast, raycast_of};
ghost use Rattle.rays.specs.declared.RaycastResult.TheVariants.{Inside, Neither};

use boxes::{Point, Segment};

// What `raycast` answers.
#[derive(Clone, Copy, Debug, PartialEq, Eq)]
pub enum RaycastResult {
    On,
    Inside,
    Neither,
}

// The inner functions take ends and point number by number: `cast` says why.
// Steps 2 and 3: ends and point agree in one coordinate, and in the other the point is in the ends' range.
fn along(a: f64, b: f64, p: f64, c: f64, d: f64, q: f64) -> bool
    ensures { result ≡ (eq a b && eq p a && within c d q) }
{
    if (a == b) & (p == a) {
        ((c <= q) & (q <= d)) | ((d <= q) & (q <= c))
    } else {
        false
    }
}

// Step 5.
fn lifted(ay: f64, by: f64, py: f64) -> f64
    ensures { result ≡ lift ay by py }
{
    if (py == ay) | (py == by) {
        floats::next_up(py)
    } else {
        py
    }
}

// Step 8, about the end a.
fn eighth(ax: f64, ay: f64, bx: f64, by: f64, px: f64, py: f64) -> RaycastResult
    ensures { result ≡ (if steep (at ax ay) (at bx by) (at px py) then Inside else Neither) }
{
    if (py - ay) / (px - ax) >= (by - ay) / (bx - ax) {
        return RaycastResult::Inside;
    }
    RaycastResult::Neither
}

// Steps 6 to 8.
#[tactic(auto, unfolding(crate::specs::Raycast::last_steps))]
fn crossing(ax: f64, ay: f64, bx: f64, by: f64, px: f64, py: f64) -> RaycastResult
    ensures { result ≡ last_steps (at ax ay) (at bx by) (at px py) }
{
    let rises = ay < by;
    let backs = bx < ax;
    let (low, high) = if rises { (ay, by) } else { (by, ay) };
    let (left, right) = if backs { (bx, ax) } else { (ax, bx) };
    if (py < low) | (high < py) | (right <= px) {
        return RaycastResult::Neither;
    }
    if px <= left {
        return RaycastResult::Inside;
    }
    if rises {
        return eighth(ax, ay, bx, by, px, py);
    }
    eighth(bx, by, ax, ay, px, py)
}

// Steps 1 to 8 with one move at most in step 5, which is all that whole-number ends call for: between
// neighbouring floats the steps move twice.
#[tactic(auto, unfolding(crate::specs::Raycast::first_steps))]
fn moved_once(ax: f64, ay: f64, bx: f64, by: f64, px: f64, py: f64) -> RaycastResult
    ensures { result ≡ cast_of (at ax ay) (at bx by) (at px py) }
{
    if (ay != by) & (((py < ay) & (py < by)) | ((ay < py) & (by < py))) {
        return RaycastResult::Neither;
    }
    if (ay == by) & (ax == bx) {
        if (px == ax) & (py == ay) {
            return RaycastResult::On;
        }
        return RaycastResult::Neither;
    }
    if along(ay, by, py, ax, bx, px) {
        return RaycastResult::On;
    }
    if along(ax, bx, px, ay, by, py) {
        return RaycastResult::On;
    }
    if (px - ax) / (bx - ax) == (py - ay) / (by - ay) {
        return RaycastResult::On;
    }
    crossing(ax, ay, bx, by, px, lifted(ay, by, py))
}

// The eight steps, for the ring tests, which read a segment's ends number by number. The numbers stay loose: handed over in
// registers, they cost half of what they do as a struct (docs/PACE.md has the ring tests' lines).
pub fn cast(ax: i32, ay: i32, bx: i32, by: i32, px: f64, py: f64) -> RaycastResult
    ensures steps { Raycast (ends ax ay bx by) (at px py) result }
    ensures computed { result ≡ raycast_of (ends ax ay bx by) (at px py) }
{
    moved_once(
        f64::from(ax),
        f64::from(ay),
        f64::from(bx),
        f64::from(by),
        px,
        py,
    )
}

// What the ray from p to the right says of a segment, by 01's eight steps: p is on the segment, or
// the ray crosses it (inside), or neither. p is any point, of NaNs and infinities too.
pub fn raycast(seg: Segment, p: Point) -> RaycastResult
    ensures steps { Raycast seg p result }
    ensures computed { result ≡ raycast_of seg p }
{
    cast(seg.a.x, seg.a.y, seg.b.x, seg.b.y, p.x, p.y)
}
