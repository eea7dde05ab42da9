// Rings without an index: listing by scan, the turn.
ghost use Rattle.std.specs.Prelude.{◌≡◌};
ghost use Rattle.rings.specs.Listing.{scanned};
ghost use Rattle.turn.specs.Turn.{turned};
ghost use Rattle.probe.specs.Rings.{list_numbers, turn_numbers};

use crate::answer::put_value;
use rings::scan;
use turn::{Turning, turn};

// How many were listed, or a refusal's place, goes to value.
#[unsafe(no_mangle)]
pub extern "C" fn probe_scan(
    coords: &[i32],
    points: usize,
    y: f64,
    out: &mut [u32],
    value: &mut usize,
) -> u32
    ensures { list_numbers (scanned coords.now points y out.old) ≡ (result, value.new, out.new) }
{
    match scan(coords, points, y, out) {
        Ok(n) => {
            *value = n;
            0
        }
        Err(refusal) => {
            *value = refusal.place();
            refusal.number()
        }
    }
}

// The turn's number goes to said, a refusal's place to place.
#[unsafe(no_mangle)]
pub extern "C" fn probe_turn(
    coords: &[i32],
    points: usize,
    place: &mut usize,
    said: &mut u32,
) -> u32
    ensures { turn_numbers (turned coords.now points) ≡ (result, place.new, said.new) }
{
    put_value(turn(coords, points).map(Turning::number), 0, place, said)
}
