// Stripes.
ghost use Rattle.std.specs.Prelude.{◌≡◌};
ghost use Rattle.stripes_place.specs.Stripe.{stripe_of};
ghost use Rattle.stripes_build.specs.Build.{stripes_built};
ghost use Rattle.stripes_find.specs.Listing.{stripes_listed};
ghost use Rattle.stripes_test.specs.Test.{stripes_tested};
ghost use Rattle.probe.specs.Numbers.{answer_numbers};
ghost use Rattle.probe.specs.Boxes.{point};
ghost use Rattle.probe.specs.Stripes.{built_numbers, built_all, listed_all};

use crate::answer::{put_answer, put_value};
use answers::Refusal;
use boxes::Point;
use stripes_build::{Stripes, build_stripes};
use stripes_find::{StripeIndex, stripes_list};
use stripes_place::stripe_of;
use stripes_test::stripes_test;

#[unsafe(no_mangle)]
pub extern "C" fn probe_stripe_of(y: f64, least: f64, height: f64, stripes: usize) -> usize
    ensures { result ≡ stripe_of y least height stripes }
{
    stripe_of(y, least, height, stripes)
}

fn put_built(
    answer: Result<Option<Stripes>, Refusal>,
    place: &mut usize,
    least: &mut f64,
    height: &mut f64,
    segments: &mut usize,
    stripes: &mut usize,
    entries: &mut usize,
    fullest: &mut usize,
) -> u32
    ensures { built_numbers answer ≡ (result, place.new, least.new, height.new, segments.new, stripes.new, entries.new, fullest.new) }
{
    *place = 0;
    *least = 0.0;
    *height = 0.0;
    *segments = 0;
    *stripes = 0;
    *entries = 0;
    *fullest = 0;
    match answer {
        Ok(Some(built)) => {
            *least = built.least;
            *height = built.height;
            *segments = built.stats.segments;
            *stripes = built.stats.stripes;
            *entries = built.stats.entries;
            *fullest = built.stats.fullest;
            0
        }
        Ok(None) => 0,
        Err(refusal) => {
            *place = refusal.place();
            refusal.number()
        }
    }
}

#[unsafe(no_mangle)]
pub extern "C" fn probe_build_stripes(
    coords: &[i32],
    points: usize,
    threshold: usize,
    room: &mut [u32],
    list: &mut [u32],
    place: &mut usize,
    least: &mut f64,
    height: &mut f64,
    segments: &mut usize,
    stripes: &mut usize,
    entries: &mut usize,
    fullest: &mut usize,
) -> u32
    ensures { built_all (stripes_built coords.now points threshold room.old list.old) ≡ ((result, place.new, least.new, height.new, segments.new, stripes.new, entries.new, fullest.new), room.new, list.new) }
{
    let answer = build_stripes(coords, points, threshold, room, list);
    put_built(
        answer, place, least, height, segments, stripes, entries, fullest,
    )
}

#[unsafe(no_mangle)]
pub extern "C" fn probe_list_stripes(
    coords: &[i32],
    points: usize,
    least: f64,
    height: f64,
    stripes: &[u32],
    list: &[u32],
    y: f64,
    out: &mut [u32],
    place: &mut usize,
    count: &mut usize,
) -> u32
    ensures { listed_all (stripes_listed coords.now points least height stripes.now list.now y out.old) ≡ ((result, place.new, count.new), out.new) }
{
    let index = StripeIndex {
        least,
        height,
        stripes,
        list,
    };
    put_value(stripes_list(coords, points, index, y, out), 0, place, count)
}

#[unsafe(no_mangle)]
pub extern "C" fn probe_test_stripes(
    coords: &[i32],
    points: usize,
    least: f64,
    height: f64,
    stripes: &[u32],
    list: &[u32],
    x: f64,
    y: f64,
    edge: bool,
    place: &mut usize,
    said: &mut u32,
) -> u32
    ensures { answer_numbers (stripes_tested coords.now points least height stripes.now list.now (point x y) edge) ≡ (result, place.new, said.new) }
{
    let index = StripeIndex {
        least,
        height,
        stripes,
        list,
    };
    let p = Point { x, y };
    put_answer(stripes_test(coords, points, index, p, edge), place, said)
}
