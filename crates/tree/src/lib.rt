// The packed tree of a ring: its limits, and the box that its root has.
#![tactic(auto)]

ghost use Rattle.std.specs.Prelude.{◌≡◌, ◌+◌, ◌*◌, ◌<◌, ◌≤◌, length, Float};
ghost use Rattle.rings.specs.Ring.{wide};
ghost use Rattle.tree.specs.Tree.{picked, quad_tree_of};

use boxes::{Point, Rect};
use floats::{greater, lesser};
use rings::coordinate;

// What a tree is read and built by, besides its bytes and its ring: the ring's box, and how many segments the ring has.
#[derive(Clone, Copy)]
pub struct QuadTree {
    pub bounds: Rect,
    pub segments: usize,
}

// Of the first coordinates (offset 0) or of the second ones (offset 1), up to point `last`: the first point's, and at each
// point after it what `pick` makes of the pick so far and of this point's. The offset is a number and no enum: it is added to
// an index.
fn pick_of<F: Fn(f64, f64) -> f64>(coords: &[i32], offset: usize, last: usize, pick: F) -> f64
    requires last_in_bounds { last * 2 + offset < length coords.now }
    requires callable { F.IsAlwaysCallable pick }
    ensures { (t : Float → Float → Float) → ((a b r : Float) → F.post pick a b r → r ≡ t a b) → result ≡ picked t (λ i. wide coords.now (i * 2 + offset)) last }
{
    let mut so_far = coordinate(coords, offset);
    for i in 0..last {
        so_far = pick(so_far, coordinate(coords, (i + 1) * 2 + offset));
    }
    so_far
}

impl QuadTree {
    // A node with at most so many segments arriving is a leaf.
    pub const Q_MAX_ITEMS: usize = 12;

    // A node at this depth is a leaf; the root's depth is 0.
    pub const Q_MAX_DEPTH: usize = 64;

    // The tree of a ring. For the crates above, which have checked the ring.
    pub fn of_ring(coords: &[i32], points: usize) -> QuadTree
        requires { (1 ≤ points) × (points * 2 ≤ length coords.now) }
        ensures { result ≡ quad_tree_of (wide coords.now) points }
    {
        let last = points - 1;
        let min = Point {
            x: pick_of(coords, 0, last, lesser),
            y: pick_of(coords, 1, last, lesser),
        };
        let max = Point {
            x: pick_of(coords, 0, last, greater),
            y: pick_of(coords, 1, last, greater),
        };
        QuadTree {
            bounds: Rect { min, max },
            segments: last,
        }
    }
}
