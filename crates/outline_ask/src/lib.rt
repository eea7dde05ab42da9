// The inside question of an outline, in both modes and under both edge rules.
#![tactic(auto)]

ghost use Rattle.std.specs.Prelude.{◌≡◌, ℕ, ℤ, List, Bool, false, ◌+◌, ◌-◌, ◌*◌, ◌<◌, ◌≤◌, length};
ghost use Rattle.answers.specs.Answers.{Answer};
ghost use Rattle.rings.specs.Ring.{segments};
ghost use Rattle.outline_check.specs.Outline.{rings, start_of, size_at, ring_of};
ghost use Rattle.outline_ring.specs.RingIndex.{lent_in};
ghost use Rattle.outline_ask.specs.Query.{scaled_query};
ghost use Rattle.outline_ask.specs.Inside.{holes_from, through_rings, inside_of};
ghost use Rattle.outline_ask.specs.Inner.Tests.{on_rings};

use answers::Answer;
use boxes::Point;
use floats::is_finite;
use grid::grid_in;
use outline_check::{Outline, RaycastMode, Rings, check_outline_with};
use outline_record::{grid_box_holds, rect_at};
use outline_ring::{Indexes, ring_asked};
use tree::QuadTree;
use whole::round;

// A scaled query: outside, a float place, or a whole place.
#[derive(Clone, Copy, Debug, PartialEq)]
pub enum Query {
    Outside,
    Float(f64, f64),
    Grid(i64, i64),
}

// A point of any floats, scaled. The caller has asked rule 5 of the scale.
#[tactic(auto, unfolding(crate::specs::Query::scaled_query))]
fn scaled(outline: Outline, p: Point) -> Query
    ensures { result ≡ scaled_query outline p }
{
    let x = p.x * outline.scale;
    let y = p.y * outline.scale;
    if (is_finite(p.x) & is_finite(p.y)) & (is_finite(x) & is_finite(y)) {
        match outline.mode {
            RaycastMode::Float => Query::Float(x, y),
            RaycastMode::Integer => Query::Grid(round(x), round(y)),
        }
    } else {
        Query::Outside
    }
}

// How the rings are asked at a scaled place.
trait RingTest {
    // Whether the exterior's box holds the place.
    ghost boxed: { Self → Bool };

    // What ring k, which has these numbers and n segments, answers under an edge rule.
    ghost asked: { Self → List ℤ → ℕ → ℕ → Bool → Answer };

    fn in_box(&self) -> bool
        ensures { result ≡ boxed self.now };

    fn ask(&self, ring: &[i32], n: usize, k: usize, edge: bool) -> Answer
        requires { (n * 2 + 2 ≤ length ring.now) × (n < 4294967296) × (k < 64) }
        ensures { result ≡ asked self.now ring.now n k edge };
}

// At a float place: by the record's boxes and the indexes.
#[derive(Clone, Copy)]
struct FloatTest<'a> {
    boxes: &'a [i32],
    lent: Indexes<'a>,
    p: Point,
}

impl<'a> RingTest for FloatTest<'a> {
    ghost use Rattle.outline_ask.specs.Inner.Tests.{float_boxed, float_answer};

    ghost boxed = { float_boxed };

    ghost asked = { float_answer };

    fn in_box(&self) -> bool {
        let bounds = rect_at(self.boxes, 0);
        bounds.contains_point(self.p)
    }

    fn ask(&self, ring: &[i32], n: usize, k: usize, edge: bool) -> Answer {
        let tree = QuadTree {
            bounds: rect_at(self.boxes, k),
            segments: n,
        };
        ring_asked(tree, ring, k, self.lent, self.p, edge)
    }
}

// At a whole place: by whole numbers, without index.
#[derive(Clone, Copy)]
struct GridTest<'a> {
    boxes: &'a [i32],
    x: i64,
    y: i64,
}

impl<'a> RingTest for GridTest<'a> {
    ghost use Rattle.outline_ask.specs.Inner.Tests.{grid_boxed, grid_answer};

    ghost boxed = { grid_boxed };

    ghost asked = { grid_answer };

    fn in_box(&self) -> bool {
        grid_box_holds(self.boxes, 0, self.x, self.y)
    }

    fn ask(&self, ring: &[i32], n: usize, _k: usize, edge: bool) -> Answer {
        Ok(grid_in(ring, n, self.x, self.y, edge))
    }
}

// Ring k, whose numbers start at `at`.
fn ask_ring<T: RingTest>(sound: Rings, test: &T, k: usize, at: usize, edge: bool) -> Answer
    requires { (k < length sound.sizes.now) × (at ≡ 2 * start_of sound.sizes.now k) }
    ensures { result ≡ on_rings (T.asked test.now) sound.entry.sizes.now sound.entry.coords.now k edge }
{
    let points = sound.sizes[k] as usize;
    let end = at + 2 * points;
    test.ask(&sound.coords[at..end], points - 1, k, edge)
}

// The holes: the first that settles the answer ends the reading.
fn ask_holes<T: RingTest>(sound: Rings, test: &T) -> Answer
    ensures { result ≡ holes_from (λ k. on_rings (T.asked test.now) sound.entry.sizes.now sound.entry.coords.now k false) (rings sound.entry.sizes.now - 1) 1 }
{
    let mut at = 2 * (sound.sizes[0] as usize);
    for k in 1..sound.sizes.len() {
        if ask_ring(sound, test, k, at, false)? {
            return Ok(false);
        }
        at += 2 * (sound.sizes[k] as usize);
    }
    Ok(true)
}

// The exterior's box, the exterior, the holes.
fn ask_all<T: RingTest>(sound: Rings, test: &T, edge: bool) -> Answer
    ensures { result ≡ through_rings (T.boxed test.now) (on_rings (T.asked test.now) sound.entry.sizes.now sound.entry.coords.now) (rings sound.entry.sizes.now) edge }
{
    if !test.in_box() {
        return Ok(false);
    }
    if !ask_ring(sound, test, 0, 0, edge)? {
        return Ok(false);
    }
    ask_holes(sound, test)
}

// Whether the outline holds p: checks 1 to 5, then the question. The record of boxes and the indexes are
// read as they stand.
// The outline's own rooms stay arguments of their own, as every call on an outline is lent them (docs/PROMISES.md).
pub fn inside(
    outline: Outline,
    sizes: &[u32],
    coords: &[i32],
    boxes: &[i32],
    lent: Indexes,
    p: Point,
    edge: bool,
) -> Answer
    ensures { result ≡ inside_of outline sizes.now coords.now boxes.now (lent_in lent.entry) p edge }
{
    let fits = sizes.len() <= boxes.len() / 4;
    check_outline_with(fits, outline, sizes, coords)?;
    let sound = Rings { sizes, coords };
    match scaled(outline, p) {
        Query::Outside => Ok(false),
        Query::Float(x, y) => {
            let p = Point { x, y };
            let test = FloatTest { boxes, lent, p };
            ask_all(sound, &test, edge)
        }
        Query::Grid(x, y) => {
            let test = GridTest { boxes, x, y };
            ask_all(sound, &test, edge)
        }
    }
}
