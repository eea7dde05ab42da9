// Searches a packed tree, into lent room or for the ring test: recursion into quadrants while the remaining depth falls from 64.
#![tactic(auto)]

ghost use Rattle.std.specs.Prelude.{◌≡◌, ◌+◌, ◌*◌, ◌<◌, ◌≤◌, ℕ, Float, length};
ghost use Rattle.rings.specs.Ring.{wide};
ghost use Rattle.tree.specs.Search.{meets_height, searched};
ghost use Rattle.tree_find.specs.Find.{answered, verdict, tree_listed, tree_tested};
ghost use Rattle.tree_find.specs.Inner.Walks.{Taking, finish_of, pour};

use answers::{Answer, Refusal};
use boxes::{Point, Rect, quad_bounds};
use cast_test::cast_at;
use rays::RaycastResult;
use rings::{check_ring, holds_height};
use tree::QuadTree;
use varint::read_uvarint;

// What is done with each segment that a search finds.
trait Visit {
    // What comes of segment i of a ring, by its numbers as floats, and the visitor after it.
    ghost step: { (ℕ → Float) → ℕ → Self → Taking Self };

    fn visit(&mut self, coords: &[i32], i: usize) -> Result<(), Refusal>
        requires { (i * 2 + 3 < length coords.now) × (i < 4294967296) }
        ensures { step (wide coords.now) i self.old ≡ (result, self.new) };
}

// Lists the numbers of the segments in lent room.
#[derive(Drop)]
struct Listing<'a> {
    out: &'a mut [u32],
    count: usize,
}

impl<'a> Visit for Listing<'a> {
    ghost use Rattle.tree_find.specs.Inner.Visits.{list_step};

    ghost step = { list_step };

    fn visit(&mut self, _coords: &[i32], i: usize) -> Result<(), Refusal> {
        let k = self.count;
        if k < self.out.len() {
            self.out[k] = i as u32;
            self.count = k + 1;
            return Ok(());
        }
        Err(Refusal::NoRoom)
    }
}

// Tests each segment against a point: whether the point was on one, and how the answer stands. Two flags and no Option,
// since the answer before "on" is what the must-fail edit `edge_ignored` tells.
#[derive(Clone, Copy)]
struct Testing {
    p: Point,
    on: bool,
    inside: bool,
}

impl Visit for Testing {
    ghost use Rattle.tree_find.specs.Inner.Visits.{test_step};

    ghost step = { test_step };

    // After "on" no segment changes anything.
    fn visit(&mut self, coords: &[i32], i: usize) -> Result<(), Refusal> {
        if !self.on {
            match cast_at(coords, i, self.p) {
                RaycastResult::On => self.on = true,
                RaycastResult::Inside => self.inside = !self.inside,
                RaycastResult::Neither => {}
            }
        }
        Ok(())
    }
}

// Whether the box meets the height line, touching included.
fn meets_height(bounds: Rect, y: f64) -> bool
    ensures { result ≡ meets_height bounds y }
{
    !((y < bounds.min.y) | (bounds.max.y < y))
}

// The end of a node's part: no byte may be left over.
fn finish(end: usize, p: usize) -> Result<usize, Refusal>
    ensures { result ≡ finish_of end p }
{
    if p == end {
        Ok(p)
    } else {
        Err(Refusal::Damaged(p))
    }
}

// What a search reads: the tree's bytes, the ring with so many segments, and the height that is asked for.
#[derive(Clone, Copy)]
struct Reading<'a> {
    bytes: &'a [u8],
    coords: &'a [i32],
    segments: u64,
    y: f64,
    ghost ring: { (segments * 2 + 2 ≤ length coords.now) × (segments < 4294967296) },
}

impl<'a> Reading<'a> {
    ghost use Rattle.tree_find.specs.Inner.Parts.{ring_of, own_list_in, own_in, child_in, children_to, node_in};

    // A node's own segments: `n` differences from `at` on.
    fn own_list<V: Visit>(
        self,
        end: usize,
        n: u64,
        at: usize,
        visit: &mut V,
    ) -> Result<usize, Refusal>
        ensures { pour (V.step (ring_of self.entry)) (own_list_in self.entry end n 0 at) visit.old ≡ (result, visit.new) }
    {
        let mut p = at;
        let mut last: u64 = 0;
        for _ in 0..n {
            let (d, next) = read_uvarint(self.bytes, p, end)?;
            if self.segments - last <= d {
                return Err(Refusal::Damaged(p));
            }
            last += d;
            let i = last as usize;
            if holds_height(self.coords, i, self.y) {
                visit.visit(self.coords, i)?;
            }
            p = next;
        }
        Ok(p)
    }

    // A node's own segments: their count, and their differences.
    fn own<V: Visit>(self, end: usize, at: usize, visit: &mut V) -> Result<usize, Refusal>
        ensures { pour (V.step (ring_of self.entry)) (own_in self.entry end at) visit.old ≡ (result, visit.new) }
    {
        let (n, next) = read_uvarint(self.bytes, at, end)?;
        self.own_list(end, n, next, visit)
    }

    // One quadrant: its size, and its bytes, which are read where its box meets the height line and passed over where not.
    // That `end` lies within the bytes stays a clause of these three: it is another `end` at each call.
    #[cycle(child_kids_node)]
    fn child<V: Visit>(
        self,
        left: usize,
        bounds: Rect,
        q: usize,
        end: usize,
        p: usize,
        visit: &mut V,
    ) -> Result<usize, Refusal>
        requires { end ≤ length self.bytes.now }
        ensures { pour (V.step (ring_of self.entry)) (child_in self.entry left bounds end q p) visit.old ≡ (result, visit.new) }
    {
        let (size, from) = read_uvarint(self.bytes, p, end)?;
        if size == 0 {
            return Ok(from);
        }
        if left == 0 {
            return Err(Refusal::Damaged(p));
        }
        if ((end - from) as u64) < size {
            return Err(Refusal::Damaged(p));
        }
        let next = from + (size as usize);
        let inner = quad_bounds(bounds, q);
        if meets_height(inner, self.y) {
            return self.node(left - 1, inner, next, from, visit);
        }
        Ok(next)
    }

    // The four quadrants.
    #[cycle(child_kids_node)]
    fn kids<V: Visit>(
        self,
        left: usize,
        bounds: Rect,
        end: usize,
        at: usize,
        visit: &mut V,
    ) -> Result<usize, Refusal>
        requires { end ≤ length self.bytes.now }
        ensures { pour (V.step (ring_of self.entry)) (children_to self.entry left bounds end 0 at) visit.old ≡ (result, visit.new) }
    {
        let mut p = at;
        for q in 0..4 {
            p = self.child(left, bounds, q, end, p, visit)?;
        }
        finish(end, p)
    }

    // A node: its own segments, its split byte, its quadrants.
    #[cycle(child_kids_node)]
    fn node<V: Visit>(
        self,
        left: usize,
        bounds: Rect,
        end: usize,
        at: usize,
        visit: &mut V,
    ) -> Result<usize, Refusal>
        requires { end ≤ length self.bytes.now }
        ensures { pour (V.step (ring_of self.entry)) (node_in self.entry left bounds at end) visit.old ≡ (result, visit.new) }
    {
        let p = self.own(end, at, visit)?;
        if end <= p {
            return Err(Refusal::Damaged(p));
        }
        let split = self.bytes[p];
        if split == 0 {
            return finish(end, p + 1);
        }
        if split == 1 {
            return self.kids(left, bounds, end, p + 1, visit);
        }
        Err(Refusal::Damaged(p))
    }
}

// The whole search, in the box and with the segments that the tree is told to have. That the ring has them stays a clause:
// `test_in` is promised with plain arguments (docs/PROMISES.md), and the others hand on what they are called with.
fn search<V: Visit>(
    tree: QuadTree,
    coords: &[i32],
    bytes: &[u8],
    y: f64,
    visit: &mut V,
) -> Result<usize, Refusal>
    requires { (tree.segments * 2 + 2 ≤ length coords.now) × (tree.segments < 4294967296) }
    ensures { pour (V.step (wide coords.now)) (searched bytes.now (wide coords.now) tree.segments y tree.bounds) visit.old ≡ (result, visit.new) }
{
    if meets_height(tree.bounds, y) {
        let reading = Reading {
            bytes,
            coords,
            segments: tree.segments as u64,
            y,
        };
        reading.node(QuadTree::Q_MAX_DEPTH, tree.bounds, bytes.len(), 0, visit)
    } else {
        Ok(0)
    }
}

// Lists the segments found at height y. For a ring and a height that passed their checks.
fn list_in(
    tree: QuadTree,
    coords: &[i32],
    bytes: &[u8],
    y: f64,
    out: &mut [u32],
) -> Result<usize, Refusal>
    requires { (tree.segments * 2 + 2 ≤ length coords.now) × (tree.segments < 4294967296) }
    ensures { answered (length out.old) (searched bytes.now (wide coords.now) tree.segments y tree.bounds) ≡ (result, out.new) }
{
    out.fill(0);
    let mut list = Listing { out, count: 0 };
    match search(tree, coords, bytes, y, &mut list) {
        Ok(_) => Ok(list.count),
        Err(why) => {
            list.out.fill(0);
            Err(why)
        }
    }
}

// The ring test by the tree. For the crates above, which have checked the ring and the point.
pub fn test_in(tree: QuadTree, coords: &[i32], bytes: &[u8], p: Point, edge: bool) -> Answer
    requires { (tree.segments * 2 + 2 ≤ length coords.now) × (tree.segments < 4294967296) }
    ensures { result ≡ verdict (wide coords.now) p edge (searched bytes.now (wide coords.now) tree.segments p.y tree.bounds) }
{
    let mut test = Testing {
        p,
        on: false,
        inside: false,
    };
    search(tree, coords, bytes, p.y, &mut test)?;
    if test.on {
        return Ok(edge);
    }
    Ok(test.inside)
}

// Lists the segments of a ring whose closed height range holds y, in the order of the tree's nodes.
pub fn tree_list(
    coords: &[i32],
    points: usize,
    bytes: &[u8],
    y: f64,
    out: &mut [u32],
) -> Result<usize, Refusal>
    ensures { tree_listed coords.now points bytes.now y out.old ≡ (result, out.new) }
{
    check_ring(coords, points)?;
    if !floats::is_finite(y) {
        return Err(Refusal::BadHeight);
    }
    list_in(QuadTree::of_ring(coords, points), coords, bytes, y, out)
}

// The ring test by the tree.
pub fn tree_test(coords: &[i32], points: usize, bytes: &[u8], p: Point, edge: bool) -> Answer
    ensures { result ≡ tree_tested coords.now points bytes.now p edge }
{
    check_ring(coords, points)?;
    if floats::is_finite(p.x) & floats::is_finite(p.y) {
        return test_in(QuadTree::of_ring(coords, points), coords, bytes, p, edge);
    }
    Ok(false)
}
