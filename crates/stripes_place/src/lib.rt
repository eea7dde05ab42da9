// The stripe of a height.
#![tactic(auto)]

ghost use Rattle.std.specs.Prelude.{◌≡◌};
ghost use Rattle.stripes_place.specs.Stripe.{stripe_of};

use whole::floor_within;

// The stripe that holds y, for any numbers. With no stripes at all it is 0. Its four numbers stay loose: a promised
// function, which C asks number by number.
#[tactic(auto, using(crate::proofs::Mono::no_stripes), unfolding(crate::specs::Stripe::stripe_of))]
pub fn stripe_of(y: f64, least: f64, height: f64, stripes: usize) -> usize
    ensures { result ≡ stripe_of y least height stripes }
{
    if height == 0.0 {
        return 0;
    }
    if stripes == 0 {
        return 0;
    }
    let place = (y - least) / height * std::num::nearest_u64_to_f64(stripes as u64);
    floor_within(place, (stripes - 1) as u64) as usize
}
