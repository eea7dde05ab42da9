// An outline from its numbers.
ghost use Rattle.std.specs.Prelude.{◌≡◌};
ghost use Rattle.outline_check.specs.Outline.{outline_of};
ghost use Rattle.capi.specs.Outlines.{mode_of};

use crate::told::is_set;
use outline_check::{Outline, RaycastMode};

fn mode_of(mode: u32) -> RaycastMode
    ensures { result ≡ mode_of mode }
{
    if is_set(mode) {
        RaycastMode::Integer
    } else {
        RaycastMode::Float
    }
}

pub fn outline_of(scale: f64, mode: u32) -> Outline
    ensures { result ≡ outline_of scale (mode_of mode) }
{
    Outline::new_with_mode(scale, mode_of(mode))
}
