// The turn of a ring: the sign of its doubled area, which is summed exactly. A ring whose area is 0 has no turn.
#![tactic(auto)]

ghost use Rattle.std.specs.Prelude.{◌≡◌, ℕ, ◌+◌, ◌*◌, ◌^◌, ◌<◌, ◌≤◌, ℤ, pos, ◌-ℤ◌, ◌*ℤ◌, length};
ghost use Rattle.rings.specs.Ring.{segment_at};
ghost use Rattle.turn.specs.Turn.{sum_to, turn_of, number_of, turned};
ghost use Rattle.turn.specs.Inner.Halves.{raised, value_of};

use answers::Refusal;
use boxes::Segment;
use rings::{check_ring, segment_at};
use std::cmp::Ordering;

// The three turns.
#[derive(Clone, Copy, Debug, PartialEq, Eq)]
pub enum Turning {
    Anticlockwise,
    Clockwise,
    None,
}

impl Turning {
    // The number that stands for a turn where answers are numbers. A method and no `From`: docs/PROMISES.md names it.
    pub fn number(self) -> u32
        ensures { result ≡ number_of self }
    {
        match self {
            Turning::Clockwise => 0,
            Turning::Anticlockwise => 1,
            Turning::None => 2,
        }
    }
}

// A sum of products, in two halves of 32 bits: 4,096 products of two coordinates outgrow 64 bits. The high half comes
// first, so the derived order is that of the sums.
#[derive(Clone, Copy, PartialEq, Eq, PartialOrd, Ord)]
struct Halves {
    high: u64,
    low: u64,
}

// A coordinate above the least i32.
fn raise(z: i32) -> u64
    ensures { (pos result ≡ raised z) × (result < 2 ^ 32) }
{
    u64::from(z.abs_diff(i32::MIN))
}

// The product of two coordinates, both raised.
fn multiply(x: i32, y: i32) -> u64
    ensures { pos result ≡ raised x *ℤ raised y }
{
    raise(x) * raise(y)
}

// The sum over n segments of what `term` says of a segment.
fn sum<F: Fn(Segment) -> u64>(coords: &[i32], n: usize, term: F) -> Halves
    requires segments_in_bounds { (n ≤ 4096) × (n * 2 + 2 ≤ length coords.now) }
    requires callable { F.IsAlwaysCallable term }
    ensures total { (t : Segment → ℤ) → ((s : Segment) (r : ℕ) → F.post term s r → pos r ≡ t s) → pos (value_of result) ≡ sum_to (λ i. t (segment_at coords.now i)) n }
    ensures halved { result.low < 2 ^ 32 }
{
    let mut high: u64 = 0;
    let mut low: u64 = 0;
    for i in 0..n {
        let p = term(segment_at(coords, i));
        high += p / 4294967296;
        low += p % 4294967296;
    }
    Halves {
        high: high + low / 4294967296,
        low: low % 4294967296,
    }
}

// The turn of a ring whose doubled area is plus less minus.
fn tell(plus: Halves, minus: Halves) -> Turning
    requires { (plus.low < 2 ^ 32) × (minus.low < 2 ^ 32) }
    ensures { result ≡ turn_of (pos (value_of plus) -ℤ pos (value_of minus)) }
{
    match plus.cmp(&minus) {
        Ordering::Greater => Turning::Anticlockwise,
        Ordering::Less => Turning::Clockwise,
        Ordering::Equal => Turning::None,
    }
}

// Rules 1 to 4, then the turn.
pub fn turn(coords: &[i32], points: usize) -> Result<Turning, Refusal>
    ensures { result ≡ turned coords.now points }
{
    check_ring(coords, points)?;
    let n = points - 1;
    let plus = sum(coords, n, |s| multiply(s.a.x, s.b.y));
    let minus = sum(coords, n, |s| multiply(s.b.x, s.a.y));
    Ok(tell(plus, minus))
}
