// The ring test of one ring of an outline, through the index that is lent for it.
#![tactic(auto)]

ghost use Rattle.std.specs.Prelude.{◌≡◌, ◌+◌, ◌*◌, ◌<◌, ◌≤◌, length, MatchResult};
ghost use Rattle.answers.specs.declared.Refusal.TheVariants.{Damaged};
ghost use Rattle.rings.specs.Ring.{wide};
ghost use Rattle.outline_ring.specs.RingIndex.{lent_in, part, stripes_asked, tree_asked, ring_asked};

use answers::{Answer, Refusal};
use boxes::Point;
use cast_test::scan_in;
use outline_table::Row;
use stripes_find::StripeIndex;
use tree::QuadTree;

// The indexes of all rings of an outline, as they are lent: a table, ten numbers a ring; least y and height, two floats
// a ring; and the stripes, lists and bytes of all rings, each in one row. The table may hold any numbers.
#[derive(Clone, Copy)]
pub struct Indexes<'a> {
    pub table: &'a [u64],
    pub spans: &'a [f64],
    pub stripes: &'a [u32],
    pub list: &'a [u32],
    pub bytes: &'a [u8],
}

// The n items of a row from `at` on, or damage where they are not all there.
fn part<T>(row: &[T], at: usize, n: usize) -> Result<&[T], Refusal>
    ensures { MatchResult result (λ s. (at + n ≤ length row.now) × (s.now ≡ part row.now at n))
        (λ why. (length row.now < at + n) × (why ≡ Damaged 0)) }
{
    at.checked_add(n)
        .and_then(|end| row.get(at..end))
        .ok_or(Refusal::Damaged(0))
}

impl<'a> Indexes<'a> {
    // By the stripes of ring k, which has n segments. The bytes are not read.
    fn by_stripes(self, ring: &[i32], n: usize, k: usize, p: Point, edge: bool) -> Answer
        requires { (n * 2 + 2 ≤ length ring.now) × (k < 64) }
        ensures { result ≡ stripes_asked (lent_in self.entry) k (wide ring.now) n p edge }
    {
        let from = Row::number(self.table, k, Row::STRIPES_START);
        let count = Row::number(self.table, k, Row::STRIPES);
        let at = Row::number(self.table, k, Row::LIST_START);
        let entries = Row::number(self.table, k, Row::ENTRIES);
        let span = part(self.spans, 2 * k, 2)?;
        let index = StripeIndex {
            least: span[0],
            height: span[1],
            stripes: part(self.stripes, from, count.saturating_mul(2))?,
            list: part(self.list, at, entries)?,
        };
        stripes_test::test_in(ring, n, index, p, edge)
    }

    // By the tree of ring k.
    fn by_tree(self, tree: QuadTree, ring: &[i32], k: usize, p: Point, edge: bool) -> Answer
        requires { (tree.segments * 2 + 2 ≤ length ring.now) × (tree.segments < 4294967296) }
        ensures { result ≡ tree_asked (lent_in self.entry) k tree.bounds (wide ring.now) tree.segments p edge }
    {
        let at = Row::number(self.table, k, Row::BYTES_START);
        let long = Row::number(self.table, k, Row::BYTES);
        let bytes = part(self.bytes, at, long)?;
        tree_find::test_in(tree, ring, bytes, p, edge)
    }
}

// The ring test of ring k, through its index. For the crates above, which have checked the outline and the point.
// That the ring has its segments stays a clause over plain arguments, as docs/PROMISES.md has it.
#[tactic(auto, unfolding(crate::specs::RingIndex::ring_asked))]
pub fn ring_asked(
    tree: QuadTree,
    ring: &[i32],
    k: usize,
    lent: Indexes,
    p: Point,
    edge: bool,
) -> Answer
    requires { (tree.segments * 2 + 2 ≤ length ring.now) × (tree.segments < 4294967296) × (k < 64) }
    ensures { result ≡ ring_asked (lent_in lent.entry) k tree.bounds (wide ring.now) tree.segments p edge }
{
    let kinds = Row::number(lent.table, k, Row::KINDS);
    if kinds % 2 == 1 {
        return lent.by_stripes(ring, tree.segments, k, p, edge);
    }
    if kinds / 2 % 2 == 1 {
        return lent.by_tree(tree, ring, k, p, edge);
    }
    scan_in(ring, tree.segments, p, edge)
}
