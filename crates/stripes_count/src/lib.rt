// How many stripes a ring calls for.
#![tactic(auto)]

ghost use Rattle.std.specs.Prelude.{◌≡◌, ◌+◌, ◌*◌, ◌<◌, ◌≤◌, length, Float};
ghost use Rattle.rings.specs.Ring.{wide};
ghost use Rattle.stripes_count.specs.Count.{ends_at_of, cross_of, length_of, sum_to, area_of, perimeter_of, score_of, stripe_count};

use rings::coordinate;
use whole::floor_within;

// A segment's ends as floats. No `boxes::Side`: its four numbers come out of one slice one by one, and `ends_at_of` names them so.
#[derive(Clone, Copy)]
struct Ends {
    ax: f64,
    ay: f64,
    bx: f64,
    by: f64,
}

impl Ends {
    // The ends of segment i.
    fn at(ring: &[i32], i: usize) -> Ends
        requires { i * 2 + 3 < length ring.now }
        ensures { result ≡ ends_at_of (wide ring.now) i }
    {
        Ends {
            ax: coordinate(ring, i * 2),
            ay: coordinate(ring, i * 2 + 1),
            bx: coordinate(ring, i * 2 + 2),
            by: coordinate(ring, i * 2 + 3),
        }
    }

    // The cross product of a segment's ends.
    fn cross(self) -> f64
        ensures { result ≡ cross_of self }
    {
        self.ax * self.by - self.bx * self.ay
    }

    // A segment's length.
    fn length(self) -> f64
        ensures { result ≡ length_of self }
    {
        let dx = self.bx - self.ax;
        let dy = self.by - self.ay;
        root::sqrt(dx * dx + dy * dy)
    }
}

// The sum over the segments, in order, of what `term` says of a segment's ends.
fn sum_over<F: Fn(Ends) -> f64>(ring: &[i32], segments: usize, term: F) -> f64
    requires segments_in_bounds { segments * 2 + 2 ≤ length ring.now }
    requires callable { F.IsAlwaysCallable term }
    ensures { (t : Ends → Float) → ((s : Ends) (r : Float) → F.post term s r → r ≡ t s) → result ≡ sum_to (λ k. t (ends_at_of (wide ring.now) k)) segments }
{
    let mut sum = 0.0;
    for i in 0..segments {
        sum = sum + term(Ends::at(ring, i));
    }
    sum
}

fn area(ring: &[i32], segments: usize) -> f64
    requires { segments * 2 + 2 ≤ length ring.now }
    ensures { result ≡ area_of (wide ring.now) segments }
{
    floats::abs(sum_over(ring, segments, Ends::cross)) * 0.5
}

fn perimeter(ring: &[i32], segments: usize) -> f64
    requires { segments * 2 + 2 ≤ length ring.now }
    ensures { result ≡ perimeter_of (wide ring.now) segments }
{
    sum_over(ring, segments, Ends::length)
}

fn score(area: f64, perimeter: f64) -> f64
    ensures { result ≡ score_of area perimeter }
{
    if perimeter == 0.0 {
        return 0.0;
    }
    (area * 3.141592653589793 * 4.0) / (perimeter * perimeter)
}

// The stripes that a ring with so many segments calls for. For the crate that builds, which has
// checked the ring.
pub fn stripe_count(ring: &[i32], segments: usize) -> u64
    requires { segments * 2 + 2 ≤ length ring.now }
    ensures { result ≡ stripe_count (wide ring.now) segments }
{
    let n = std::num::nearest_u64_to_f64(segments as u64);
    let score = score(area(ring, segments), perimeter(ring, segments));
    floor_within(n * score, u64::MAX).max(32)
}
