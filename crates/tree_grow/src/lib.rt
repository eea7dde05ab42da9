// Grows the tree of a ring in two rooms: the segments are shared out where they stand, and each node leaves six numbers in
// the other, a node before its quadrants. The `pub` functions are for the crates above, which have checked the ring.
// A record is six numbers in a row and no struct, and the tree has no boxes: both rooms are lent, from C as well, as slices
// of u32, and the project has no heap.
#![tactic(auto)]

ghost use Rattle.std.specs.Prelude.{◌≡◌, ◌∷◌, ◌+◌, ◌-◌, ◌*◌, ◌<◌, ◌≤◌, length, drop};
ghost use Rattle.rings.specs.Ring.{wide};
ghost use Rattle.varint.specs.Leb128.{encode};
ghost use Rattle.tree.specs.Tree.{max_items, max_depth, leaf, own_bytes, grown};
ghost use Rattle.tree.specs.All.{All};
ghost use Rattle.tree_part.specs.Part.{Readable};
ghost use Rattle.tree_grow.specs.Inner.Growing.{crop_of, sprout, share_of, shares_from, crop_from, Grew, TreeGrew};

use boxes::{Rect, quad_bounds};
use tree::QuadTree;
use tree_part::{Shares, share_out};
use varint::uvarint_len;

// How many bytes a difference takes. A node's segments rise; the definition's difference is 0 where they would not.
fn gap_len(x: u32, last: u32) -> usize
    ensures { (result ≡ length (encode (x - last))) × (result ≤ 10) }
{
    uvarint_len(u64::from(x.saturating_sub(last)))
}

// How many bytes a node's own segments take.
fn own_size(run: &[u32]) -> usize
    requires { length run.now ≤ 4096 }
    ensures { (result ≡ length (own_bytes run.now)) × (result ≤ 10 + 10 * length run.now) }
{
    let mut size = uvarint_len(run.len() as u64);
    let mut last: u32 = 0;
    for x in run {
        size += gap_len(*x, last);
        last = *x;
    }
    size
}

// A node's six numbers.
fn write_record(rest: &mut [u32], shares: Shares, size: usize)
    requires in_bounds { (6 ≤ length rest.old) × (size < 4294967296) }
    requires own_bound { (shares.own < 4294967296) × (shares.nw < 4294967296) × (shares.ne < 4294967296) × (shares.sw < 4294967296) × (shares.se < 4294967296) }
    ensures { rest.new ≡ shares.own ∷ shares.nw ∷ shares.ne ∷ shares.sw ∷ shares.se ∷ size ∷ drop 6 rest.old }
{
    rest[0] = shares.own as u32;
    rest[1] = shares.nw as u32;
    rest[2] = shares.ne as u32;
    rest[3] = shares.sw as u32;
    rest[4] = shares.se as u32;
    rest[5] = size as u32;
}

// A leaf keeps what arrives.
fn grow_leaf(run: &[u32], rest: &mut [u32]) -> Option<(usize, usize)>
    requires { (length run.now ≤ 4096) × (6 ≤ length rest.old) }
    ensures { Grew (crop_of (leaf run.now)) rest.old result run.now rest.new }
{
    let size = own_size(run) + 1;
    let shares = Shares {
        own: run.len(),
        nw: 0,
        ne: 0,
        sw: 0,
        se: 0,
    };
    write_record(rest, shares, size);
    Some((1, size))
}

// How many segments go to quadrant q. A quadrant is told by its number, as document 01 and the public calls tell it.
fn share_of(shares: Shares, q: usize) -> usize
    ensures { result ≡ share_of shares q }
{
    match q {
        0 => shares.nw,
        1 => shares.ne,
        2 => shares.sw,
        _ => shares.se,
    }
}

// Where a tree grows: its ring, how many levels stand below the node, and the node's box.
// No ghost field bounds `left`: it may be all levels in `grow` and one less in `grow_split` and `grow_from`, so two clauses
// of three would stay, and with a ghost field `..*self` cannot be written. The rest speaks of the run, lent as &mut.
// A spot, and the shares of its segments, go over by reference: each level of the recursion holds six frames, and their copies
// took a third of the stack that a build needs.
#[derive(Clone, Copy)]
struct Spot<'a> {
    ring: &'a [i32],
    left: usize,
    bounds: Rect,
}

impl<'a> Spot<'a> {
    // The tree of what arrives, with so many levels below its root.
    #[cycle(grow_grow_from_grow_split)]
    fn grow(&self, run: &mut [u32], rest: &mut [u32]) -> Option<(usize, usize)>
        requires { (self.now.left ≤ max_depth) × (length run.old ≤ 4096) × All (Readable (length self.now.ring.now)) run.old }
        ensures { Grew (crop_of (sprout (wide self.now.ring.now) self.now.left self.now.bounds run.old)) rest.old result run.new rest.new }
    {
        if run.is_empty() {
            return Some((0, 0));
        }
        if rest.len() < 6 {
            return None;
        }
        if self.left == 0 {
            return grow_leaf(run, rest);
        }
        if run.len() <= QuadTree::Q_MAX_ITEMS {
            return grow_leaf(run, rest);
        }
        let below = Spot {
            left: self.left - 1,
            ..*self
        };
        below.grow_split(run, rest)
    }

    // A node that splits, with so many levels below its quadrants. Its record is written last, since it has the size.
    #[cycle(grow_grow_from_grow_split)]
    fn grow_split(&self, run: &mut [u32], rest: &mut [u32]) -> Option<(usize, usize)>
        requires { (self.now.left < max_depth) × (max_items < length run.old) × (length run.old ≤ 4096) × All (Readable (length self.now.ring.now)) run.old × (6 ≤ length rest.old) }
        ensures { Grew (crop_of (grown (wide self.now.ring.now) (self.now.left + 1) self.now.bounds run.old)) rest.old result run.new rest.new }
    {
        let shares = share_out(self.ring, self.bounds, run);
        let own = shares.own;
        let bytes = own_size(&run[..own]) + 1;
        let (nodes, size) = self.grow_from(&shares, 0, &mut run[own..], &mut rest[6..])?;
        write_record(rest, shares, bytes + size);
        Some((nodes + 1, bytes + size))
    }

    // The quadrants from q on, whose segments stand one behind the other.
    #[cycle(grow_grow_from_grow_split)]
    fn grow_from(
        &self,
        shares: &Shares,
        q: usize,
        run: &mut [u32],
        rest: &mut [u32],
    ) -> Option<(usize, usize)>
        requires { (self.now.left < max_depth) × (q ≤ 4) × (length run.old ≤ 4096) × All (Readable (length self.now.ring.now)) run.old × (shares_from shares.now q ≡ length run.old) }
        ensures { Grew (crop_from (wide self.now.ring.now) self.now.left self.now.bounds shares.now q run.old) rest.old result run.new rest.new }
    {
        if q == 4 {
            return Some((0, 0));
        }
        let n = share_of(*shares, q);
        let quadrant = Spot {
            bounds: quad_bounds(self.bounds, q),
            ..*self
        };
        let (nodes, size) = quadrant.grow(&mut run[..n], rest)?;
        let used = nodes * 6;
        let (more, sizes) = self.grow_from(shares, q + 1, &mut run[n..], &mut rest[used..])?;
        Some((nodes + more, uvarint_len(size as u64) + size + sizes))
    }
}

// Grows a ring's tree from the segments in `run`; its nodes go to `rest`. For the builder, which has
// checked the ring.
pub fn grow_tree(ring: &[i32], bounds: Rect, run: &mut [u32], rest: &mut [u32]) -> Option<usize>
    requires { (0 < length run.old) × (length run.old ≤ 4096) × All (Readable (length ring.now)) run.old }
    ensures { TreeGrew (grown (wide ring.now) max_depth bounds run.old) rest.old result run.new rest.new }
{
    let root = Spot {
        ring,
        left: QuadTree::Q_MAX_DEPTH,
        bounds,
    };
    let (nodes, _) = root.grow(run, rest)?;
    Some(nodes)
}
