// Builds the packed tree of a ring in lent room.
#![tactic(auto)]

ghost use Rattle.std.specs.Prelude.{◌≡◌, true, ◌-◌, ◌*◌, ◌<◌, ◌≤◌, length, replicate, get_or};
ghost use Rattle.room.specs.Numbers.{up_to};
ghost use Rattle.rings.specs.Ring.{wide};
ghost use Rattle.tree.specs.Tree.{max_depth, tree_of};
ghost use Rattle.tree_pack.specs.Inner.Packing.{node_of, NodeStands};
ghost use Rattle.tree_build.specs.Build.{packed_in, from_threshold, tree_built};
ghost use Rattle.tree_build.specs.Inner.Steps.{put, put_grown};

use answers::Refusal;
use rings::Ring;
use room::wide;
use tree::QuadTree;
use tree_grow::grow_tree;
use tree_pack::pack_tree;

// The numbers of all segments, rising.
fn number_all(run: &mut [u32])
    requires { length run.old ≤ 4096 }
    ensures { run.new ≡ up_to (λ i. true) (length run.old) 0 }
{
    for (i, x) in run.iter_mut().enumerate() {
        *x = i as u32;
    }
}

// The bytes of the tree whose segments stand in `run` and whose nodes in `rest`, where there is room for them. The root's record has their size.
fn pack(run: &[u32], rest: &[u32], bytes: &mut [u8]) -> Result<Option<usize>, Refusal>
    requires node_stands { NodeStands max_depth run.now rest.now }
    requires rest_value { get_or rest.now 5 0 ≡ length (node_of max_depth run.now rest.now).0 }
    requires bytes_value { bytes.old ≡ replicate (length bytes.old) 0 }
    ensures { put (node_of max_depth run.now rest.now).0 (length bytes.old) ≡ (result, bytes.new) }
{
    let size = wide(rest[5]);
    if bytes.len() < size {
        return Err(Refusal::NoRoom);
    }
    pack_tree(run, rest, bytes);
    Ok(Some(size))
}

// A ring that passed the checks.
#[derive(Clone, Copy)]
struct Sound<'a> {
    ring: &'a [i32],
    points: usize,
    ghost checked: { (2 ≤ points) × (points ≤ 4097) × (points * 2 ≡ length ring.now) },
}

impl<'a> Sound<'a> {
    // Grows the tree and packs it. `run` has one number a segment, `rest` is for the nodes.
    fn grow_and_pack(
        self,
        bytes: &mut [u8],
        run: &mut [u32],
        rest: &mut [u32],
    ) -> Result<Option<usize>, Refusal>
        requires run_value { length run.old ≡ self.points - 1 }
        requires bytes_value { bytes.old ≡ replicate (length bytes.old) 0 }
        ensures { put_grown (tree_of (wide self.entry.ring.now) self.entry.points) (length rest.old) (length bytes.old) ≡ (result, bytes.new) }
    {
        number_all(run);
        let tree = QuadTree::of_ring(self.ring, self.points);
        grow_tree(self.ring, tree.bounds, run, rest).ok_or(Refusal::NoRoom)?;
        pack(run, rest, bytes)
    }

    // The tree of a ring that reached the threshold, in room for the bytes that is zero. Two parts of one lent room cannot be
    // written by one call, so the segments' numbers stand in an array of this function, which costs 16 KB of stack; their
    // place in the work room is called for and not used, and the nodes stand behind it.
    fn build_checked(self, bytes: &mut [u8], work: &mut [u32]) -> Result<Option<usize>, Refusal>
        requires { bytes.old ≡ replicate (length bytes.old) 0 }
        ensures { packed_in (wide self.entry.ring.now) self.entry.points bytes.old work.old ≡ (result, bytes.new, replicate (length work.old) 0) }
    {
        let n = self.points - 1;
        if work.len() < n {
            return Err(Refusal::NoRoom);
        }
        let mut run = [0u32; Ring::MAX_POINTS - 1];
        self.grow_and_pack(bytes, &mut run[..n], &mut work[n..])
    }

    // The same from the threshold on, in any room.
    fn build_sound(
        self,
        threshold: usize,
        bytes: &mut [u8],
        work: &mut [u32],
    ) -> Result<Option<usize>, Refusal>
        ensures { from_threshold (wide self.entry.ring.now) self.entry.points threshold bytes.old work.old ≡ (result, bytes.new, work.new) }
    {
        bytes.fill(0);
        let built = if self.points - 1 < threshold {
            Ok(None)
        } else {
            self.build_checked(bytes, work)
        };
        // After success and after 8 alike.
        work.fill(0);
        built
    }
}

// Builds the packed tree of one ring in lent room: its bytes, and work room of one number a segment and six a node. Answers
// how many bytes it takes. A ring of fewer segments than the threshold gets none, and its room is zero. A search is lent the
// used part of the bytes. The two rooms stay arguments of their own, as docs/PROMISES.md names this call and C lends them.
pub fn build_tree(
    coords: &[i32],
    points: usize,
    threshold: usize,
    bytes: &mut [u8],
    work: &mut [u32],
) -> Result<Option<usize>, Refusal>
    ensures { tree_built coords.now points threshold bytes.old work.old ≡ (result, bytes.new, work.new) }
{
    rings::check_ring(coords, points)?;
    let ring = Sound {
        ring: coords,
        points,
    };
    ring.build_sound(threshold, bytes, work)
}
