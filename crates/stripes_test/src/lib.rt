// The ring test by stripes: one pass over the stripe of the point's height, with no list room.
#![tactic(auto)]

ghost use Rattle.std.specs.Prelude.{◌≡◌, ◌+◌, ◌*◌, ◌<◌, ◌≤◌, length};
ghost use Rattle.rings.specs.Ring.{wide};
ghost use Rattle.stripes_find.specs.Search.{searched};
ghost use Rattle.stripes_find.specs.Inner.Part.{run_read};
ghost use Rattle.stripes_test.specs.Test.{verdict, stripes_tested};

use answers::{Answer, Refusal};
use boxes::Point;
use cast_test::step;
use room::wide;
use std::ops::ControlFlow;
use stripes_find::StripeIndex;

// The ring test of a part of the list. Damage is looked for to the part's end, also behind an "on". `stripes_find` goes through a
// part too, but writes into room that may be short: one walk over what is done with a segment would be a trait with two
// implementors for two loops of six lines.
fn test_run(
    ring: &[i32],
    n: usize,
    list: &[u32],
    start: usize,
    past: usize,
    p: Point,
    edge: bool,
) -> Answer
    requires { (n * 2 + 2 ≤ length ring.now) × (start ≤ past) × (past ≤ length list.now) }
    ensures { result ≡ verdict (wide ring.now) p edge (run_read (wide ring.now) n list.now start past p.y) }
{
    let mut seen = ControlFlow::Continue(false);
    for at in start..past {
        let i = wide(list[at]);
        if n <= i {
            return Err(Refusal::Damaged(at));
        }
        seen = step(ring, i, p, seen);
    }
    match seen {
        ControlFlow::Continue(inside) => Ok(inside),
        ControlFlow::Break(_) => Ok(edge),
    }
}

// The ring test by a whole index. For callers that have checked the ring and the point.
pub fn test_in(ring: &[i32], n: usize, index: StripeIndex, p: Point, edge: bool) -> Answer
    requires { n * 2 + 2 ≤ length ring.now }
    ensures { result ≡ verdict (wide ring.now) p edge (searched (wide ring.now) n index.entry.least index.entry.height index.entry.stripes.now index.entry.list.now p.y) }
{
    if index.is_outside(p.y) {
        return Ok(false);
    }
    let (start, past) = index.part(p.y)?;
    test_run(ring, n, index.list, start, past, p, edge)
}

// The ring test by stripes, of one ring and any point.
pub fn stripes_test(
    coords: &[i32],
    points: usize,
    index: StripeIndex,
    p: Point,
    edge: bool,
) -> Answer
    ensures { result ≡ stripes_tested coords.now points index.entry.least index.entry.height index.entry.stripes.now index.entry.list.now p edge }
{
    rings::check_ring(coords, points)?;
    if floats::is_finite(p.x) & floats::is_finite(p.y) {
        test_in(coords, points - 1, index, p, edge)
    } else {
        Ok(false)
    }
}
