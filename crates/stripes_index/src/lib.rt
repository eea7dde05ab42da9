// A ring's stripes: the ends of its segments, how many segments cross each stripe, and where each
// stripe's part of the list starts. The `pub` functions are for the crates above, which have checked
// the ring.
#![tactic(auto)]

ghost use Rattle.std.specs.Prelude.{◌≡◌, ℕ, ◌+◌, ◌*◌, ◌<◌, ◌≤◌, length, replicate, Float};
ghost use Rattle.rings.specs.Ring.{wide, side_at};
ghost use Rattle.room.specs.Room.{pad};
ghost use Rattle.stripes_index.specs.Index.{low_end, high_end, least_y, greatest_y, first_stripe, last_stripe, crosses, entries_of, fullest_of};
ghost use Rattle.stripes_index.specs.Inner.States.{picked, pairs, none, second_at, sum_to, most_to, counts_at, table_at};

use rings::coordinate;
use room::wide;
use stripes_place::stripe_of;

// Entries in all, and in the fullest stripe.
#[derive(Clone, Copy, Debug, PartialEq, Eq)]
pub struct Totals {
    pub entries: usize,
    pub fullest: usize,
}

// Of the heights of segment i's ends, the one that `pick` takes.
fn end_by<F: Fn(f64, f64) -> f64>(ring: &[i32], i: usize, pick: F) -> f64
    requires i_in_bounds { i * 2 + 3 < length ring.now }
    requires callable { F.IsAlwaysCallable pick }
    ensures { F.post pick (side_at (wide ring.now) i).a.y (side_at (wide ring.now) i).b.y result }
{
    pick(coordinate(ring, i * 2 + 1), coordinate(ring, i * 2 + 3))
}

// Of the heights that n segments reach, the one that `pick` takes.
fn height_by<F: Fn(f64, f64) -> f64>(ring: &[i32], n: usize, pick: F) -> f64
    requires n_in_bounds { n * 2 + 2 ≤ length ring.now }
    requires callable { F.IsAlwaysCallable pick }
    ensures { (better : Float → Float → Float) → ((a b r : Float) → F.post pick a b r → r ≡ better a b) → result ≡ picked better (wide ring.now) n }
{
    let mut height = coordinate(ring, 1);
    for i in 0..n {
        height = pick(height, end_by(ring, i, &pick));
    }
    height
}

// The lower end's height of segment i. For the crates above, which have checked the ring.
pub fn low_end(ring: &[i32], i: usize) -> f64
    requires { i * 2 + 3 < length ring.now }
    ensures { result ≡ low_end (wide ring.now) i }
{
    end_by(ring, i, floats::lesser)
}

// The higher end's. For the same.
pub fn high_end(ring: &[i32], i: usize) -> f64
    requires { i * 2 + 3 < length ring.now }
    ensures { result ≡ high_end (wide ring.now) i }
{
    end_by(ring, i, floats::greater)
}

// The least height that n segments reach. For the crates above, which have checked the ring.
pub fn least_y(ring: &[i32], n: usize) -> f64
    requires { n * 2 + 2 ≤ length ring.now }
    ensures { result ≡ least_y (wide ring.now) n }
{
    height_by(ring, n, floats::lesser)
}

// The greatest. For the same.
pub fn greatest_y(ring: &[i32], n: usize) -> f64
    requires { n * 2 + 2 ≤ length ring.now }
    ensures { result ≡ greatest_y (wide ring.now) n }
{
    height_by(ring, n, floats::greater)
}

// How a ring's heights are cut: from its least y up, over its height, into so many stripes. That they are more than none stays a
// clause and no fact of the type: docs/PROMISES.md names `prepare`, which takes a cut of any numbers and asks for that.
#[derive(Clone, Copy, Debug, PartialEq)]
pub struct Cut {
    pub least: f64,
    pub height: f64,
    pub stripes: usize,
}

impl Cut {
    // The first and the last stripe that segment i crosses. For the crates above, which have checked the ring.
    pub fn crossed(self, ring: &[i32], i: usize) -> (usize, usize)
        requires i_bound { (i * 2 + 3 < length ring.now) × (0 < self.stripes) }
        ensures { (result.0 ≡ first_stripe (wide ring.now) self.least self.height self.stripes i) × (result.1 ≡ last_stripe (wide ring.now) self.least self.height self.stripes i) × (result.1 < self.stripes) }
    {
        let first = stripe_of(low_end(ring, i), self.least, self.height, self.stripes);
        let last = stripe_of(high_end(ring, i), self.least, self.height, self.stripes);
        (first, last)
    }
}

// Counts segment i in each stripe that it crosses. The segments before it are counted.
fn count_segment(ring: &[i32], cut: Cut, i: usize, stripes: &mut [u32])
    requires i_bound { (i < 4096) × (i * 2 + 3 < length ring.now) × (0 < cut.stripes) × (cut.stripes * 2 ≤ length stripes.old) }
    requires stripes_value { stripes.old ≡ pad (length stripes.old) (counts_at (crosses (wide ring.now) cut.least cut.height cut.stripes) cut.stripes i) }
    ensures { stripes.new ≡ pad (length stripes.old) (counts_at (crosses (wide ring.now) cut.least cut.height cut.stripes) cut.stripes (i + 1)) }
{
    let (first, last) = cut.crossed(ring, i);
    for s in first..=last {
        stripes[s * 2 + 1] += 1;
    }
}

// Counts n segments in room that is zero.
fn count_all(ring: &[i32], n: usize, cut: Cut, stripes: &mut [u32])
    requires n_bound { (n ≤ 4096) × (n * 2 + 2 ≤ length ring.now) × (0 < cut.stripes) × (cut.stripes * 2 ≤ length stripes.old) }
    requires stripes_value { stripes.old ≡ replicate (length stripes.old) 0 }
    ensures { stripes.new ≡ pad (length stripes.old) (counts_at (crosses (wide ring.now) cut.least cut.height cut.stripes) cut.stripes n) }
{
    for i in 0..n {
        count_segment(ring, cut, i, stripes);
    }
}

// Puts each stripe's start, the running sum of the counts, and takes its count back to 0. The room is C's, two numbers
// a stripe in one slice.
fn place_starts(stripes: &mut [u32], m: usize) -> Totals
    requires m_bound { (m ≤ 65536) × (m * 2 ≤ length stripes.old) × ((s : ℕ) → s < m → second_at stripes.old s ≤ 4096) }
    requires stripes_value { stripes.old ≡ pad (length stripes.old) (pairs none (second_at stripes.old) m) }
    ensures entries_value { (result.entries ≡ sum_to (second_at stripes.old) m) × (result.fullest ≡ most_to (second_at stripes.old) m) }
    ensures stripes_after { stripes.new ≡ pad (length stripes.old) (pairs (sum_to (second_at stripes.old)) none m) }
{
    let mut start: u32 = 0;
    let mut fullest: u32 = 0;
    for s in 0..m {
        let count = stripes[s * 2 + 1];
        stripes[s * 2] = start;
        stripes[s * 2 + 1] = 0;
        start += count;
        fullest = fullest.max(count);
    }
    Totals {
        entries: wide(start),
        fullest: wide(fullest),
    }
}

// Counts n segments in room that is zero, and places the starts. For the crate that builds, which has
// checked the ring and measured the room.
pub fn prepare(ring: &[i32], n: usize, cut: Cut, stripes: &mut [u32]) -> Totals
    requires n_bound { (n ≤ 4096) × (n * 2 + 2 ≤ length ring.now) × (0 < cut.stripes) × (cut.stripes ≤ 65536) × (cut.stripes * 2 ≤ length stripes.old) }
    requires stripes_value { stripes.old ≡ replicate (length stripes.old) 0 }
    ensures entries_value { (result.entries ≡ entries_of (crosses (wide ring.now) cut.least cut.height cut.stripes) n cut.stripes) × (result.fullest ≡ fullest_of (crosses (wide ring.now) cut.least cut.height cut.stripes) n cut.stripes) }
    ensures stripes_after { stripes.new ≡ pad (length stripes.old) (table_at (crosses (wide ring.now) cut.least cut.height cut.stripes) cut.stripes n 0) }
{
    count_all(ring, n, cut, stripes);
    place_starts(stripes, cut.stripes)
}
