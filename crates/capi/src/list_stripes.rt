ghost use Rattle.std.specs.Prelude.{◌≡◌};
ghost use Rattle.stripes_find.specs.Listing.{stripes_listed};
ghost use Rattle.capi.specs.Told.{told};
ghost use Rattle.capi.specs.Lists.{stripes_told};

use crate::told::tell_count;
use stripes_find::{StripeIndex, stripes_list};

// The same list, by any stripe index.
#[unsafe(no_mangle)]
pub extern "C" fn brothstitch_list_stripes(
    coords: &[i32],
    points: usize,
    least: f64,
    height: f64,
    stripes: &[u32],
    list: &[u32],
    y: f64,
    out: &mut [u32],
    value: &mut u64,
) -> u32
    ensures { told stripes_told (stripes_listed coords.now points least height stripes.now list.now y out.old) ≡ ((result, value.new), out.new) }
{
    let index = StripeIndex {
        least,
        height,
        stripes,
        list,
    };
    let answer = stripes_list(coords, points, index, y, out);
    tell_count(answer, value)
}
