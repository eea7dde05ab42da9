ghost use Rattle.std.specs.Prelude.{◌≡◌};
ghost use Rattle.wkb_read.specs.Read.{wkb_read};
ghost use Rattle.capi.specs.Wkb.{read_told, numbers_told, wkb_told};

use crate::told::tell_wkb_refusal;
use wkb_shape::WkbRefusal;

fn tell_read(answer: Result<(usize, usize), WkbRefusal>, numbers: &mut u64, value: &mut u64) -> u32
    ensures { (read_told answer ≡ (result, value.new)) × (numbers_told answer ≡ numbers.new) }
{
    match answer {
        Ok((rings, n)) => {
            *numbers = n as u64;
            *value = rings as u64;
            0
        }
        Err(why) => {
            *numbers = 0;
            tell_wkb_refusal(why, value)
        }
    }
}

// Reads an outline from a polygon in well-known binary.
#[unsafe(no_mangle)]
pub extern "C" fn brothstitch_read_wkb(
    bytes: &[u8],
    scale: f64,
    sizes: &mut [u32],
    coords: &mut [i32],
    numbers: &mut u64,
    value: &mut u64,
) -> u32
    ensures { wkb_told (wkb_read sizes.old coords.old scale bytes.now) ≡ ((result, value.new), numbers.new, sizes.new, coords.new) }
{
    let answer = wkb_read::read_wkb(bytes, scale, sizes, coords);
    tell_read(answer, numbers, value)
}
