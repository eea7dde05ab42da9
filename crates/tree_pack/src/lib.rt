// Packs a grown tree: recursion into quadrants while the remaining depth falls from 64. A child's size stands in its record,
// so that it is known before the child is written, and nothing is written twice. All sizes were worked out while the tree
// grew and the builder has seen that the bytes fit, so no number's length is asked for here.
#![tactic(auto)]

ghost use Rattle.std.specs.Prelude.{◌≡◌, ◌+◌, ◌≤◌, ◌<◌, length};
ghost use Rattle.room.specs.Room.{write};
ghost use Rattle.tree.specs.Tree.{max_depth, own_bytes};
ghost use Rattle.tree_pack.specs.Inner.Packing.{head_of, kids_of, node_of, KidsStand, NodeStands};

use room::wide;
use tree::QuadTree;
use varint::write_uvarint;

// A node's own segments: their count, and how far each lies behind the last one, 0 where it does not.
fn put_own(own: &[u32], out: &mut [u8], at: usize) -> usize
    requires { at + length (own_bytes own.now) ≤ length out.old }
    ensures { (result ≡ at + length (own_bytes own.now)) × (out.new ≡ write out.old at (own_bytes own.now)) }
{
    let mut p = write_uvarint(out, at, own.len() as u64);
    let mut last: u32 = 0;
    for x in own {
        p = write_uvarint(out, p, u64::from(x.saturating_sub(last)));
        last = *x;
    }
    p
}

// The same, and the split byte.
fn put_head(own: &[u32], split: u8, out: &mut [u8], at: usize) -> usize
    requires { at + length (head_of own.now split) ≤ length out.old }
    ensures { (result ≡ at + length (head_of own.now split)) × (out.new ≡ write out.old at (head_of own.now split)) }
{
    let p = put_own(own, out, at);
    out[p] = split;
    p + 1
}

// What is packed: a node's segments, the records from its own on, and how many levels stand below it; of quadrants, the
// segments and the records of all of them, and how many levels stand below each.
#[derive(Clone, Copy)]
struct Grown<'a> {
    run: &'a [u32],
    rest: &'a [u32],
    left: usize,
}

impl<'a> Grown<'a> {
    // The quadrants to which so many segments go: for each the size and the bytes, or 0. Answers how many nodes they are.
    #[cycle(kids_node)]
    fn kids(self, counts: &[u32], out: &mut [u8], at: usize) -> usize
        requires kids_stand { KidsStand (node_of self.left) (NodeStands self.left) counts.now self.run.now self.rest.now }
        requires rest_in_bounds { at + length (kids_of (node_of self.left) counts.now self.run.now self.rest.now).0 ≤ length out.old }
        ensures { (result ≡ (kids_of (node_of self.entry.left) counts.now self.entry.run.now self.entry.rest.now).1) × (out.new ≡ write out.old at (kids_of (node_of self.entry.left) counts.now self.entry.run.now self.entry.rest.now).0) }
    {
        let [count, others @ ..] = counts else {
            return 0;
        };
        let n = wide(*count);
        if n == 0 {
            let next = write_uvarint(out, at, 0);
            return self.kids(others, out, next);
        }
        let size = wide(self.rest[5]);
        let start = write_uvarint(out, at, size as u64);
        let first = Grown {
            run: &self.run[..n],
            ..self
        };
        let nodes = first.node(out, start);
        let used = nodes * 6;
        let behind = Grown {
            run: &self.run[n..],
            rest: &self.rest[used..],
            ..self
        };
        nodes + behind.kids(others, out, start + size)
    }

    // A node and all below it. Answers how many nodes they are.
    #[cycle(kids_node)]
    fn node(self, out: &mut [u8], at: usize) -> usize
        requires node_stands { NodeStands self.left self.run.now self.rest.now }
        requires rest_in_bounds { at + length (node_of self.left self.run.now self.rest.now).0 ≤ length out.old }
        ensures { (result ≡ (node_of self.entry.left self.entry.run.now self.entry.rest.now).1) × (out.new ≡ write out.old at (node_of self.entry.left self.entry.run.now self.entry.rest.now).0) }
    {
        if self.left == 0 {
            put_head(self.run, 0, out, at);
            return 1;
        }
        if self.run.len() <= QuadTree::Q_MAX_ITEMS {
            put_head(self.run, 0, out, at);
            return 1;
        }
        let own = wide(self.rest[0]);
        let next = put_head(&self.run[..own], 1, out, at);
        let quadrants = Grown {
            run: &self.run[own..],
            rest: &self.rest[6..],
            left: self.left - 1,
        };
        1 + quadrants.kids(&self.rest[1..5], out, next)
    }
}

// Writes the bytes of the tree whose segments stand in `run` and whose nodes in `rest`. For the builder, which has grown it.
pub fn pack_tree(run: &[u32], rest: &[u32], out: &mut [u8])
    requires node_stands { NodeStands max_depth run.now rest.now }
    requires rest_in_bounds { length (node_of max_depth run.now rest.now).0 ≤ length out.old }
    ensures { out.new ≡ write out.old 0 (node_of max_depth run.now rest.now).0 }
{
    let root = Grown {
        run,
        rest,
        left: QuadTree::Q_MAX_DEPTH,
    };
    root.node(out, 0);
}
