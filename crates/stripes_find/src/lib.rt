// Searches a lent stripe index, whoever wrote it.
#![tactic(auto)]

ghost use Rattle.std.specs.Prelude.{◌≡◌, ◌+◌, ◌*◌, ◌/◌, ◌<◌, ◌≤◌, length, replicate};
ghost use Rattle.rings.specs.Ring.{wide};
ghost use Rattle.stripes_place.specs.Stripe.{stripe_of};
ghost use Rattle.stripes_find.specs.Search.{outside, searched};
ghost use Rattle.stripes_find.specs.Listing.{poured, stripes_listed};
ghost use Rattle.stripes_find.specs.Inner.Part.{part_at, run_read};

use answers::Refusal;
use rings::holds_height;
use room::wide;
use stripes_place::stripe_of;

// An index as it is lent: its least y and height, its stripes, two numbers each, and its list. The numbers of a stripe
// stay side by side in one slice: so C lends them.
#[derive(Clone, Copy)]
pub struct StripeIndex<'a> {
    pub least: f64,
    pub height: f64,
    pub stripes: &'a [u32],
    pub list: &'a [u32],
}

impl StripeIndex<'_> {
    // Whether y is outside its least to least+height.
    pub fn is_outside(self, y: f64) -> bool
        ensures { result ≡ outside y self.entry.least self.entry.height }
    {
        is_outside(y, self.least, self.height)
    }

    // Where the part of y's stripe lies in its list.
    pub fn part(self, y: f64) -> Result<(usize, usize), Refusal>
        ensures { result ≡ part_at self.entry.least self.entry.height self.entry.stripes.now (length self.entry.list.now) y }
    {
        stripe_part(self.least, self.height, self.stripes, self.list.len(), y)
    }
}

// Whether y is outside least to least+height.
pub fn is_outside(y: f64, least: f64, height: f64) -> bool
    ensures { result ≡ outside y least height }
{
    if height == 0.0 {
        return y != least;
    }
    (y < least) | (y > least + height)
}

// The stripe of y, which is one of those lent.
fn stripe_in(least: f64, height: f64, stripes: &[u32], y: f64) -> usize
    requires { 0 < length stripes.now / 2 }
    ensures { (result ≡ stripe_of y least height (length stripes.now / 2)) × (result * 2 + 1 < length stripes.now) }
{
    stripe_of(y, least, height, stripes.len() / 2)
}

// Where the part of y's stripe lies in a list of `long` numbers: from a place up to another.
pub fn stripe_part(
    least: f64,
    height: f64,
    stripes: &[u32],
    long: usize,
    y: f64,
) -> Result<(usize, usize), Refusal>
    ensures { result ≡ part_at least height stripes.now long y }
{
    if stripes.len() / 2 == 0 {
        return Err(Refusal::Damaged(0));
    }
    let s = stripe_in(least, height, stripes, y);
    let start = wide(stripes[s * 2]);
    let past = start + wide(stripes[s * 2 + 1]);
    if long < past {
        return Err(Refusal::Damaged(long));
    }
    Ok((start, past))
}

// Lists the numbers of a part whose own height range holds y, in room that is zero.
fn list_run(
    ring: &[i32],
    n: usize,
    list: &[u32],
    start: usize,
    past: usize,
    y: f64,
    out: &mut [u32],
) -> Result<usize, Refusal>
    requires n_in_bounds { (n * 2 + 2 ≤ length ring.now) × (start ≤ past) × (past ≤ length list.now) }
    requires out_value { out.old ≡ replicate (length out.old) 0 }
    ensures { poured (run_read (wide ring.now) n list.now start past y) out.old ≡ (result, out.new) }
{
    let mut k: usize = 0;
    for at in start..past {
        let i = wide(list[at]);
        if n <= i {
            out.fill(0);
            return Err(Refusal::Damaged(at));
        }
        if !holds_height(ring, i, y) {
            continue;
        }
        if out.len() <= k {
            out.fill(0);
            return Err(Refusal::NoRoom);
        }
        out[k] = list[at];
        k += 1;
    }
    Ok(k)
}

// The same of a whole index, in any room, for a ring that passed the checks and a finite y.
fn list_sound(
    ring: &[i32],
    n: usize,
    index: StripeIndex,
    y: f64,
    out: &mut [u32],
) -> Result<usize, Refusal>
    requires { n * 2 + 2 ≤ length ring.now }
    ensures { poured (searched (wide ring.now) n index.entry.least index.entry.height index.entry.stripes.now index.entry.list.now y) out.old ≡ (result, out.new) }
{
    out.fill(0);
    if index.is_outside(y) {
        return Ok(0);
    }
    let (start, past) = index.part(y)?;
    list_run(ring, n, index.list, start, past, y, out)
}

// Lists by rising place in its stripe the segments of one ring whose closed height range holds y, as
// the index lent has them. Two numbers make a stripe, so the room that an index was built in is lent
// without the zeros behind its stripes.
pub fn stripes_list(
    coords: &[i32],
    points: usize,
    index: StripeIndex,
    y: f64,
    out: &mut [u32],
) -> Result<usize, Refusal>
    ensures { stripes_listed coords.now points index.entry.least index.entry.height index.entry.stripes.now index.entry.list.now y out.old ≡ (result, out.new) }
{
    rings::check_ring(coords, points)?;
    if floats::is_finite(y) {
        list_sound(coords, points - 1, index, y, out)
    } else {
        Err(Refusal::BadHeight)
    }
}
