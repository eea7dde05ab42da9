// The square root of IEEE 754, worked out over whole numbers.
#![tactic(auto)]

ghost use Rattle.std.specs.Prelude.{◌≡◌, ◌+◌, ◌*◌, ◌^◌, ◌≤◌, ◌<◌};
ghost use Rattle.std.specs.Float.{binary64};
ghost use Rattle.root.specs.SquareRoot.{SquareRoot};
ghost use Rattle.root.specs.Computed.{sqrt_of};
ghost use Rattle.root.specs.Inner.Digits.{Rooted, ScaledTo, RootBits};

// A whole root and what is left: the number is q * q + rem.
#[derive(Clone, Copy)]
struct Split {
    q: u64,
    rem: u64,
}

impl Split {
    // One more pair d of binary digits of the number, and so one more digit of its root. There is no branch on it: it is as
    // good as random, so a branch would be guessed wrong every other time.
    fn digit(self, d: u64) -> Split
        requires { (self.q < 2 ^ 54) × (self.rem ≤ 2 * self.q) × (d < 4) }
        ensures { Rooted (4 * (self.q * self.q + self.rem) + d) result.q result.rem × (result.q ≤ 2 * self.q + 1) }
    {
        let more = self.rem * 4 + d;
        let trial = self.q * 4 + 1;
        let one = u64::from(trial <= more);
        Split {
            q: self.q * 2 + one,
            rem: more - trial * one,
        }
    }
}

// The first pair of digits of a number below 2 ^ 54 counts 2 ^ 52.
const PAIR: u64 = 0x10_0000_0000_0000;

// The root of m * 2 ^ 54, by 54 pairs of digits: those of m, and then zeros.
fn whole_root(m: u64) -> Split
    requires { m < 2 ^ 54 }
    ensures { Rooted (m * 2 ^ 54) result.q result.rem }
{
    let mut root = Split { q: 0, rem: 0 };
    let mut left = m;
    for _ in 0..54u64 {
        root = root.digit(left / PAIR);
        left = left % PAIR * 4;
    }
    root
}

// 2 ^ 52: in a float's pattern the digits stand below it and the exponent's field from it on, and it is what the leading
// digit of a normal value counts.
const LEAD: u64 = 0x10_0000_0000_0000;

// A positive float as digits * 4 ^ field / 2 ^ 2098, with 53 or 54 binary digits.
#[derive(Clone, Copy)]
struct Scaled {
    digits: u64,
    field: u64,
}

// A subnormal value has too few digits: pairs of zeros are put behind them.
fn scale_subnormal(n: u64) -> Scaled
    requires { (0 < n) × (n < 2 ^ 52) }
    ensures { ScaledTo n result.digits result.field }
{
    let pairs = 26 - n.ilog2() / 2;
    Scaled {
        digits: n * 4u64.pow(pairs),
        field: 512 - u64::from(pairs),
    }
}

// A normal value is m * 2 ^ (e - 1075). Where that exponent is odd, m is doubled.
fn scale(n: u64) -> Scaled
    requires { (0 < n) × (n < 0x7ff0_0000_0000_0000) }
    ensures { ScaledTo n result.digits result.field }
{
    if n < LEAD {
        return scale_subnormal(n);
    }
    let e = n / LEAD;
    let m = n % LEAD + LEAD;
    Scaled {
        digits: m * (2 - e % 2),
        field: (e + 1023) / 2,
    }
}

// The pattern of the root of the positive finite float with the pattern n. The whole root has one digit more than a
// float keeps, and it rounds the others.
fn root_bits(n: u64) -> u64
    requires { (0 < n) × (n < 0x7ff0_0000_0000_0000) }
    ensures { RootBits n result }
{
    let s = scale(n);
    let w = whole_root(s.digits);
    s.field * LEAD + ((w.q + 1) / 2 - LEAD)
}

// IEEE 754's squareRoot, to the nearest float. NaN, both zeros and +infinity stay, and what is below zero gives a NaN. It stays
// beside std's `sqrt`: `SquareRoot` of specs/ is the promise, read off IEEE 754, and the digits above are what it is proved of.
pub fn sqrt(x: f64) -> f64
    ensures meets { SquareRoot binary64 x result }
    ensures computed { result ≡ sqrt_of binary64 x }
{
    if (x > 0.0) & floats::is_finite(x) {
        return f64::from_bits(root_bits(f64::to_bits(x)));
    }
    if x < 0.0 {
        return 0.0 / 0.0;
    }
    x
}
