// The record of an outline: the box of each ring, four whole numbers a ring, written once and read by each question.
#![tactic(auto)]

ghost use Rattle.std.specs.Prelude.{◌≡◌, ◌+◌, ◌*◌, ◌<◌, ◌≤◌, length, get_or, ℤ, pos};
ghost use Rattle.std.specs.Float.{binary64};
ghost use Rattle.std.specs.Float.Ieee.{of_int};
ghost use Rattle.room.specs.Room.{write};
ghost use Rattle.outline_check.specs.Outline.{rings, size_at};
ghost use Rattle.outline_record.specs.Record.{picked_z, box_numbers, boxes_of, number_at, rect_at, grid_box_holds, holes};
ghost use Rattle.outline_record.specs.Made.{recorded, boxes_made};

use answers::Refusal;
use boxes::{Point, Rect};
use outline_check::{Outline, Rings, check_outline};
use room::fill_from;

// Of the first coordinates (offset 0) or of the second ones (offset 1), up to point `last`: the first point's, and at each
// point after it what `pick` makes of the pick so far and of this point's. `tree` has the same over floats: one function for both
// would take how a number is read as a second closure, with a clause on it, and be no shorter.
fn pick_of<F: Fn(i32, i32) -> i32>(coords: &[i32], offset: usize, last: usize, pick: F) -> i32
    requires last_in_bounds { last * 2 + offset < length coords.now }
    requires callable { F.IsAlwaysCallable pick }
    ensures { (t : ℤ → ℤ → ℤ) → ((a b r : ℤ) → F.post pick a b r → r ≡ t a b) → result ≡ picked_z t (λ i. get_or coords.now (i * 2 + offset) (pos 0)) last }
{
    let mut so_far = coords[offset];
    for i in 0..last {
        so_far = pick(so_far, coords[(i + 1) * 2 + offset]);
    }
    so_far
}

// A ring's box, written at a place.
fn put_box(ring: &[i32], points: usize, out: &mut [i32], at: usize)
    requires { (1 ≤ points) × (points * 2 ≤ length ring.now) × (at + 4 ≤ length out.old) }
    ensures { out.new ≡ write out.old at (box_numbers ring.now points) }
{
    let last = points - 1;
    out[at] = pick_of(ring, 0, last, |low, x| low.min(x));
    out[at + 1] = pick_of(ring, 1, last, |low, y| low.min(y));
    out[at + 2] = pick_of(ring, 0, last, |high, x| high.max(x));
    out[at + 3] = pick_of(ring, 1, last, |high, y| high.max(y));
}

// Each ring's box, one after the other, in room that holds them.
fn put_boxes(sound: Rings, out: &mut [i32])
    requires { 4 * rings sound.sizes.now ≤ length out.old }
    ensures { out.new ≡ write out.old 0 (boxes_of sound.entry.sizes.now sound.entry.coords.now) }
{
    let mut start: usize = 0;
    for (k, size) in sound.sizes.iter().enumerate() {
        let points = *size as usize;
        let end = start + 2 * points;
        put_box(&sound.coords[start..end], points, out, 4 * k);
        start = end;
    }
}

// The boxes and zeros behind them, or all zeros where the room is short.
fn put_record(sound: Rings, boxes: &mut [i32]) -> Result<usize, Refusal>
    ensures { recorded sound.entry.sizes.now sound.entry.coords.now boxes.old ≡ (result, boxes.new) }
{
    let used = 4 * sound.sizes.len();
    if boxes.len() < used {
        boxes.fill(0);
        return Err(Refusal::NoRoom);
    }
    put_boxes(sound, boxes);
    fill_from(boxes, used, 0);
    Ok(sound.sizes.len())
}

// Makes the record of an outline: rules 1 to 5, then the box of each ring.
#[tactic(auto, unfolding(crate::specs::Made::boxes_made))]
pub fn make_boxes(
    outline: Outline,
    sizes: &[u32],
    coords: &[i32],
    boxes: &mut [i32],
) -> Result<usize, Refusal>
    ensures { boxes_made outline.scale sizes.now coords.now boxes.old ≡ (result, boxes.new) }
{
    check_outline(outline, sizes, coords)?;
    let sound = Rings { sizes, coords };
    put_record(sound, boxes)
}

// Number i of ring k's box, 0 where it is missing.
fn number_at(boxes: &[i32], k: usize, i: usize) -> i32
    ensures { result ≡ number_at boxes.now (4 * k + i) }
{
    let at = k.saturating_mul(4).saturating_add(i);
    boxes.get(at).copied().unwrap_or(0)
}

// Ring k's box, as it stands in the record.
pub fn rect_at(boxes: &[i32], k: usize) -> Rect
    ensures { result ≡ rect_at boxes.now k }
{
    let side = |i| f64::from(number_at(boxes, k, i));
    Rect {
        min: Point {
            x: side(0),
            y: side(1),
        },
        max: Point {
            x: side(2),
            y: side(3),
        },
    }
}

// The exterior's box: the source's `rect`.
pub fn rect(boxes: &[i32]) -> Rect
    ensures { result ≡ rect_at boxes.now 0 }
{
    rect_at(boxes, 0)
}

// Whether ring k's box, closed, as it stands in the record, holds the whole place (x, y).
pub fn grid_box_holds(boxes: &[i32], k: usize, x: i64, y: i64) -> bool
    ensures { result ≡ grid_box_holds boxes.now k x y }
{
    let side = |i| i64::from(number_at(boxes, k, i));
    (side(0) <= x) & (x <= side(2)) & (side(1) <= y) & (y <= side(3))
}

pub fn ring_count(sizes: &[u32]) -> usize
    ensures { result ≡ rings sizes.now }
{
    sizes.len()
}

pub fn hole_count(sizes: &[u32]) -> usize
    ensures { result ≡ holes sizes.now }
{
    sizes.len().saturating_sub(1)
}

// How many points ring k has, 0 where there is no such ring.
pub fn point_count(sizes: &[u32], k: usize) -> usize
    ensures { result ≡ size_at sizes.now k }
{
    sizes.get(k).map_or(0, |points| *points as usize)
}
