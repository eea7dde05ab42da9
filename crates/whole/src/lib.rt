// Floats to whole numbers: floor, and rounding with halves away from zero. Every function takes any
// float.
#![tactic(auto)]

ghost use Rattle.std.specs.Prelude.{◌≡◌};
ghost use Rattle.whole.specs.Held.{signed, clamp, first, last};
ghost use Rattle.whole.specs.Floor.{FloorTo, floor_to, FloorWithin, floor_within};
ghost use Rattle.whole.specs.Round.{RoundTo, round_to};
ghost use Rattle.whole.specs.Inner.Sizes.{near_size, ceiling_size};

// The greatest whole number not above x, held to 0 .. top: 0 at a NaN.
pub fn floor_within(x: f64, top: u64) -> u64
    ensures meets { FloorWithin top x result }
    ensures computed { result ≡ floor_within top x }
{
    std::num::saturating_f64_to_u64(x).min(top)
}

// n, or -n, held to the ends of an i64.
fn with_sign(minus: bool, n: u64) -> i64
    ensures { result ≡ clamp (first 63) (last 63) (signed minus n) }
{
    if minus {
        if n < 9223372036854775808 {
            return 0 - (n as i64);
        }
        return -9223372036854775807 - 1;
    }
    if n < 9223372036854775808 {
        return n as i64;
    }
    9223372036854775807
}

// The least whole number not below x, for an x above 0: at most the largest u64.
fn ceiling(x: f64) -> u64
    ensures { result ≡ ceiling_size x }
{
    let k = floor_within(x, 18446744073709551615);
    // from 2^53 on no float has a fraction
    if k < 9007199254740992 {
        if (k as f64) < x {
            return k + 1;
        }
        return k;
    }
    k
}

// x to the nearest whole number, a half up, for an x above 0: at most 2^63. x + x is exact, or an
// infinity.
fn near(x: f64) -> u64
    ensures { result ≡ near_size x }
{
    let twice = floor_within(x + x, 18446744073709551615);
    twice / 2 + twice % 2
}

// The greatest whole number not above x, held to the ends of an i64, 0 at a NaN: Rust's
// `x.floor() as i64`.
pub fn floor(x: f64) -> i64
    ensures meets { FloorTo 63 x result }
    ensures computed { result ≡ floor_to 63 x }
{
    if x < 0.0 {
        return with_sign(true, ceiling(-x));
    }
    with_sign(false, floor_within(x, 18446744073709551615))
}

// The nearest whole number to x, halves away from zero, held to the ends of an i64, 0 at a NaN:
// Rust's `x.round() as i64`.
pub fn round(x: f64) -> i64
    ensures meets { RoundTo 63 x result }
    ensures computed { result ≡ round_to 63 x }
{
    with_sign(x < 0.0, near(floats::abs(x)))
}
