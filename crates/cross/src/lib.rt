// The sign of the cross: on which side of a segment a place lies, exactly, for any i32.
#![tactic(auto)]

ghost use Rattle.std.specs.Prelude.{◌≡◌, ◌^◌, ◌<◌, ◌-ℤ◌, ◌*ℤ◌};
ghost use Rattle.cross.specs.Cross.{cross, sign_of};
ghost use Rattle.cross.specs.Inner.Signed.{value_of};

// The sign of a whole number: below zero, zero, above zero. It stays an enum of its own beside std's `Ordering`, whose cases
// name another thing, less and greater of two values; docs/PROMISES.md names the three signs.
#[derive(Clone, Copy, Debug, PartialEq, Eq)]
pub enum Sign {
    Below,
    Zero,
    Above,
}

// A whole number as its sign and its unsigned size. A size of 0 may stand with either sign.
#[derive(Clone, Copy)]
struct Signed {
    below: bool,
    size: u64,
}

// From a to b. The widest gap, from one end of the range to the other, is of size 2^32 - 1.
fn gap(a: i32, b: i32) -> Signed
    ensures { (value_of result ≡ b -ℤ a) × (result.size < 2 ^ 32) }
{
    let d = i64::from(b) - i64::from(a);
    Signed {
        below: d < 0,
        size: d.unsigned_abs(),
    }
}

// Sizes below 2^32 have a product below 2^64.
fn product(f: Signed, g: Signed) -> Signed
    requires { (f.size < 2 ^ 32) × (g.size < 2 ^ 32) }
    ensures { value_of result ≡ value_of f *ℤ value_of g }
{
    Signed {
        below: f.below != g.below,
        size: f.size * g.size,
    }
}

// The sign of f - g, which itself may not fit 64 bits: by the signs, and where they are the same by the sizes.
fn compared(f: Signed, g: Signed) -> Sign
    ensures { result ≡ sign_of (value_of f -ℤ value_of g) }
{
    let s = f.below;
    let t = g.below;
    let m = f.size;
    let n = g.size;
    if s == t {
        if m == n {
            return Sign::Zero;
        }
        if (m < n) == s {
            return Sign::Above;
        }
        return Sign::Below;
    }
    if (m == 0) & (n == 0) {
        return Sign::Zero;
    }
    if s { Sign::Below } else { Sign::Above }
}

// The sign of (bx-ax)(py-ay) - (by-ay)(px-ax), for any ends and any place.
#[tactic(auto, unfolding(crate::specs::Cross::cross))]
pub fn cross_sign(ax: i32, ay: i32, bx: i32, by: i32, px: i32, py: i32) -> Sign
    ensures { result ≡ sign_of (cross ax ay bx by px py) }
{
    let first = product(gap(ax, bx), gap(ay, py));
    let second = product(gap(ay, by), gap(ax, px));
    compared(first, second)
}
