ghost use Rattle.std.specs.Prelude.{◌≡◌};
ghost use Rattle.rings.specs.Listing.{scanned};
ghost use Rattle.capi.specs.Told.{told};
ghost use Rattle.capi.specs.Lists.{list_told};

use crate::told::tell_count;
use rings::scan;

// The segments of a ring whose closed height range holds y, by rising number.
#[unsafe(no_mangle)]
pub extern "C" fn brothstitch_list_scan(
    coords: &[i32],
    points: usize,
    y: f64,
    out: &mut [u32],
    value: &mut u64,
) -> u32
    ensures { told list_told (scanned coords.now points y out.old) ≡ ((result, value.new), out.new) }
{
    let answer = scan(coords, points, y, out);
    tell_count(answer, value)
}
