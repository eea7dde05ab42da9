// Floats: what the language has no operator for. Every function takes any float.
#![tactic(auto)]

ghost use Rattle.std.specs.Prelude.{◌≡◌};
ghost use Rattle.std.specs.Float.{binary64};
ghost use Rattle.std.specs.Float.Ieee.Scale.{finite};
ghost use Rattle.floats.specs.Next.{NextUp, next_up_of};
ghost use Rattle.floats.specs.Values.{abs_of, lesser_of, greater_of};

// IEEE 754's nextUp: the least float above x. NaN and +infinity stay, both zeros go to the smallest
// positive value, and -infinity goes to the least finite one.
pub fn next_up(x: f64) -> f64
    ensures meets { NextUp binary64 x result }
    ensures computed { result ≡ next_up_of x }
{
    x.next_up()
}

// Neither a NaN nor an infinity: Rust's `f64::is_finite`.
#[tactic(auto, using(crate::proofs::Values::finite_std))]
pub fn is_finite(x: f64) -> bool
    ensures { result ≡ finite x }
{
    x.is_finite()
}

// The size of x: Rust's `f64::abs`.
#[tactic(auto, using(crate::proofs::Values::abs_std))]
pub fn abs(x: f64) -> f64
    ensures { result ≡ abs_of x }
{
    x.abs()
}

// Rust's `f64::min`. std's own leaves open which of two zeros it gives, and the promise here says the first, so this
// stays a comparison.
#[tactic(auto, unfolding(crate::specs::Values::lesser_of))]
pub fn lesser(x: f64, y: f64) -> f64
    ensures { result ≡ lesser_of x y }
{
    if (y < x) | (x != x) {
        return y;
    }
    x
}

// Rust's `f64::max`, likewise.
#[tactic(auto, unfolding(crate::specs::Values::greater_of))]
pub fn greater(x: f64, y: f64) -> f64
    ensures { result ≡ greater_of x y }
{
    if (x < y) | (x != x) {
        return y;
    }
    x
}
