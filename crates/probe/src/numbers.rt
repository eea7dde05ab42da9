// Floats: what the language has no operator for, whole numbers, the root.
ghost use Rattle.std.specs.Prelude.{◌≡◌};
ghost use Rattle.std.specs.Float.{binary64};
ghost use Rattle.std.specs.Float.Ieee.Scale.{finite};
ghost use Rattle.floats.specs.Next.{next_up_of};
ghost use Rattle.floats.specs.Values.{abs_of, lesser_of, greater_of};
ghost use Rattle.root.specs.Computed.{sqrt_of};
ghost use Rattle.whole.specs.Floor.{floor_to, floor_within};
ghost use Rattle.whole.specs.Round.{round_to};

use floats::{abs, greater, is_finite, lesser, next_up};
use root::sqrt;
use whole::{floor, floor_within, round};

#[unsafe(no_mangle)]
pub extern "C" fn probe_next_up(x: f64) -> f64
    ensures { result ≡ next_up_of x }
{
    next_up(x)
}

#[unsafe(no_mangle)]
pub extern "C" fn probe_is_finite(x: f64) -> bool
    ensures { result ≡ finite x }
{
    is_finite(x)
}

#[unsafe(no_mangle)]
pub extern "C" fn probe_abs(x: f64) -> f64
    ensures { result ≡ abs_of x }
{
    abs(x)
}

#[unsafe(no_mangle)]
pub extern "C" fn probe_lesser(x: f64, y: f64) -> f64
    ensures { result ≡ lesser_of x y }
{
    lesser(x, y)
}

#[unsafe(no_mangle)]
pub extern "C" fn probe_greater(x: f64, y: f64) -> f64
    ensures { result ≡ greater_of x y }
{
    greater(x, y)
}

#[unsafe(no_mangle)]
pub extern "C" fn probe_sqrt(x: f64) -> f64
    ensures { result ≡ sqrt_of binary64 x }
{
    sqrt(x)
}

#[unsafe(no_mangle)]
pub extern "C" fn probe_floor(x: f64) -> i64
    ensures { result ≡ floor_to 63 x }
{
    floor(x)
}

#[unsafe(no_mangle)]
pub extern "C" fn probe_floor_within(x: f64, top: u64) -> u64
    ensures { result ≡ floor_within top x }
{
    floor_within(x, top)
}

#[unsafe(no_mangle)]
pub extern "C" fn probe_round(x: f64) -> i64
    ensures { result ≡ round_to 63 x }
{
    round(x)
}
