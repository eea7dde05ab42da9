// The segments that arrive at a node of the tree that splits, shared out in the room where they stand.
#![tactic(auto)]

ghost use Rattle.std.specs.Prelude.{◌≡◌, map, ◌+◌, ◌*◌, ◌<◌, ◌≤◌, length};
ghost use Rattle.rings.specs.Ring.{wide};
ghost use Rattle.tree.specs.All.{All};
ghost use Rattle.tree_part.specs.Part.{Readable, shared_out};
ghost use Rattle.tree_part.specs.Inner.Halves.{class_of_of, marked, lower, upper, of_class, Lifted, classes, class_counts};

use boxes::{Rect, choose_quad};
use rings::segment_at;

// How many of the segments stay, and how many go to each quadrant, by the quadrants' names.
#[derive(Clone, Copy)]
pub struct Shares {
    pub own: usize,
    pub nw: usize,
    pub ne: usize,
    pub sw: usize,
    pub se: usize,
}

// A segment's class, in the order in which the classes are to stand. Classes are numbers and no enum: they are marks in
// the u32 of the lent room, put there by an addition and read back by a division.
fn class_of(way: Option<usize>) -> u32
    ensures { result ≡ class_of_of way }
{
    match way {
        None => 0,
        Some(0) => 1,
        Some(1) => 2,
        Some(2) => 3,
        Some(_) => 4,
    }
}

// A segment with its class as a mark above its number.
fn mark(ring: &[i32], bounds: Rect, x: u32) -> u32
    requires { Readable (length ring.now) x }
    ensures { result ≡ marked (wide ring.now) bounds x }
{
    let segment = segment_at(ring, x as usize);
    x + 4096 * class_of(choose_quad(bounds, segment.rect()))
}

// Marks every segment of the run. That each can be read stays a clause, here and below: `share_out` is promised with plain
// arguments (docs/PROMISES.md), and the run, lent as `&mut`, changes.
fn mark_all(ring: &[i32], bounds: Rect, run: &mut [u32])
    requires { All (Readable (length ring.now)) run.old }
    ensures { run.new ≡ map (marked (wide ring.now) bounds) run.old }
{
    for x in run.iter_mut() {
        *x = mark(ring, bounds, *x);
    }
}

// The segments of one class go to the upper halves from `at` on. Answers the place past them. The place is counted by hand,
// since it moves only past a segment of the class, and the loop goes over numbers, since it writes elsewhere than it reads.
fn lift(run: &mut [u32], class: u32, at: usize) -> usize
    requires { at + length (of_class class (map lower run.old)) ≤ length run.old }
    ensures { Lifted class at run.old run.new result }
{
    let mut p = at;
    for i in 0..run.len() {
        let x = run[i] % 65536;
        if x / 4096 == class {
            run[p] = run[p] % 65536 + 65536 * (x % 4096);
            p += 1;
        }
    }
    p
}

// The segments of each class, one class behind the other, go to the upper halves.
fn lift_all(run: &mut [u32]) -> Shares
    requires { length (classes (map lower run.old)) ≡ length run.old }
    ensures value { result ≡ class_counts (map lower run.old) }
    ensures run_after { map upper run.new ≡ classes (map lower run.old) }
{
    let own = lift(run, 0, 0);
    let nw = lift(run, 1, own);
    let ne = lift(run, 2, nw);
    let sw = lift(run, 3, ne);
    let se = lift(run, 4, sw);
    Shares {
        own,
        nw: nw - own,
        ne: ne - nw,
        sw: sw - ne,
        se: se - sw,
    }
}

// The upper halves alone are left.
fn settle(run: &mut [u32])
    ensures { run.new ≡ map upper run.old }
{
    for x in run.iter_mut() {
        *x /= 65536;
    }
}

// Shares a run of segments out: the stayers come first, then the segments of quadrants 0 to 3, each in the order in which
// they stood. For the crates above, which have checked the ring.
pub fn share_out(ring: &[i32], bounds: Rect, run: &mut [u32]) -> Shares
    requires { All (Readable (length ring.now)) run.old }
    ensures { shared_out (wide ring.now) bounds run.old ≡ (result, run.new) }
{
    mark_all(ring, bounds, run);
    let shares = lift_all(run);
    settle(run);
    shares
}
