ghost use Rattle.std.specs.Prelude.{◌≡◌};
ghost use Rattle.turn.specs.Turn.{turned};
ghost use Rattle.capi.specs.Rings.{turn_told};

use crate::told::tell_refusal;
use turn::turn;

// The turn of a ring: 1 anticlockwise, 0 clockwise, 2 none.
#[unsafe(no_mangle)]
pub extern "C" fn brothstitch_turn(coords: &[i32], points: usize, value: &mut u64) -> u32
    ensures { turn_told (turned coords.now points) ≡ (result, value.new) }
{
    match turn(coords, points) {
        Ok(turning) => {
            *value = 0;
            turning.number()
        }
        Err(why) => tell_refusal(why, value),
    }
}
