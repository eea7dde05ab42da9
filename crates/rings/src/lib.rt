// A ring: its points one after the other, two numbers a point, the first point again at the end.
#![tactic(auto)]

ghost use Rattle.std.specs.Prelude.{◌≡◌, ◌+◌, ◌*◌, ◌<◌, ◌≤◌, length};
ghost use Rattle.room.specs.Numbers.{up_to};
ghost use Rattle.rings.specs.Ring.{wide, segment_at, side_at, holds_height};
ghost use Rattle.rings.specs.Listing.{listed_in, scanned};
ghost use Rattle.rings.specs.Checks.{closed, ring_checked};

use answers::Refusal;
use boxes::{I32Point, Segment};
use floats::is_finite;

// A ring's points are lent as a slice of numbers, so the type holds nothing but the limits of a ring. Below and in the crates
// above, that a slice is long enough for its segments stays a `requires` over plain arguments: docs/PROMISES.md names these
// functions with it in its last table, and a type that carried it would ask more of their callers. Private functions between
// them take what they are called with.
#[derive(Clone, Copy)]
pub struct Ring;

impl Ring {
    pub const MIN_POINTS: usize = 2;

    pub const MAX_POINTS: usize = 4097;
}

// Number i of a ring as a float, which holds every i32. For the crates above, which have checked the ring.
pub fn coordinate(coords: &[i32], i: usize) -> f64
    requires { i < length coords.now }
    ensures { result ≡ wide coords.now i }
{
    f64::from(coords[i])
}

// Segment i, from point i to point i + 1. For the crates above, which have checked the ring.
pub fn segment_at(coords: &[i32], i: usize) -> Segment
    requires { i * 2 + 3 < length coords.now }
    ensures { result ≡ segment_at coords.now i }
{
    Segment {
        a: I32Point {
            x: coords[i * 2],
            y: coords[i * 2 + 1],
        },
        b: I32Point {
            x: coords[i * 2 + 2],
            y: coords[i * 2 + 3],
        },
    }
}

// Whether the first and the last point are the same. For callers that have counted the points.
pub fn is_closed(coords: &[i32], points: usize) -> bool
    requires { (1 ≤ points) × (points * 2 ≤ length coords.now) }
    ensures { result ≡ closed coords.now points }
{
    let last = (points - 1) * 2;
    (coords[0] == coords[last]) & (coords[1] == coords[last + 1])
}

// Rules 1 to 4 on one ring.
pub fn check_ring(coords: &[i32], points: usize) -> Result<(), Refusal>
    ensures { result ≡ ring_checked coords.now points }
{
    if points < Ring::MIN_POINTS {
        return Err(Refusal::TooFew(0));
    }
    if Ring::MAX_POINTS < points {
        return Err(Refusal::TooMany(0));
    }
    if points * 2 != coords.len() {
        return Err(Refusal::SizesDiffer);
    }
    if is_closed(coords, points) {
        Ok(())
    } else {
        Err(Refusal::NotClosed(0))
    }
}

// Whether the closed height range of segment i holds y. For the crates above, which have checked the ring.
pub fn holds_height(coords: &[i32], i: usize, y: f64) -> bool
    requires { i * 2 + 3 < length coords.now }
    ensures { result ≡ holds_height (side_at (wide coords.now) i) y }
{
    let a = coordinate(coords, i * 2 + 1);
    let b = coordinate(coords, i * 2 + 3);
    ((a <= y) & (y <= b)) | ((b <= y) & (y <= a))
}

// The numbers of those among n segments whose height range holds y, into room that holds zeros.
fn list(coords: &[i32], n: usize, y: f64, out: &mut [u32]) -> Result<usize, Refusal>
    requires { (n ≤ 4096) × (n * 2 + 2 ≤ length coords.now) }
    ensures { listed_in (up_to (λ i. holds_height (side_at (wide coords.now) i) y) n 0) out.old ≡ (result, out.new) }
{
    out.fill(0);
    let mut k: usize = 0;
    for i in 0..n {
        if !holds_height(coords, i, y) {
            continue;
        }
        if out.len() <= k {
            out.fill(0);
            return Err(Refusal::NoRoom);
        }
        out[k] = i as u32;
        k += 1;
    }
    Ok(k)
}

// Listing by scan.
pub fn scan(coords: &[i32], points: usize, y: f64, out: &mut [u32]) -> Result<usize, Refusal>
    ensures { scanned coords.now points y out.old ≡ (result, out.new) }
{
    check_ring(coords, points)?;
    if is_finite(y) {
        list(coords, points - 1, y, out)
    } else {
        Err(Refusal::BadHeight)
    }
}
