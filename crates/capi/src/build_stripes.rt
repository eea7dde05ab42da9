ghost use Rattle.std.specs.Prelude.{◌≡◌, ◌≤◌, length, replicate};
ghost use Rattle.room.specs.Room.{pad};
ghost use Rattle.stripes_build.specs.Build.{stripes_built};
ghost use Rattle.capi.specs.Stripes.{zero_span, span_of, four, striped_told, unstriped_told, refused_told, built_told, built_all};

use crate::told::tell_refusal;
use answers::Refusal;
use stripes_build::{Stripes, StripesStats, build_stripes};

// Zeros in the two rooms that only the C interface has.
fn zero_rooms(span: &mut [f64], stats: &mut [u64])
    ensures spans { span.new ≡ zero_span (length span.old) }
    ensures statistics { stats.new ≡ replicate (length stats.old) 0 }
{
    span.fill(0.0);
    stats.fill(0);
}

// Into room that is zero.
fn put_span(built: Stripes, span: &mut [f64])
    requires { (2 ≤ length span.old) × (span.old ≡ zero_span (length span.old)) }
    ensures { span.new ≡ span_of built.least built.height (length span.old) }
{
    span[0] = built.least;
    span[1] = built.height;
}

fn put_stats(told: StripesStats, stats: &mut [u64])
    requires { (4 ≤ length stats.old) × (stats.old ≡ replicate (length stats.old) 0) }
    ensures { stats.new ≡ pad (length stats.old) (four told) }
{
    stats[0] = told.segments as u64;
    stats[1] = told.stripes as u64;
    stats[2] = told.entries as u64;
    stats[3] = told.fullest as u64;
}

// The rooms stay loose: C lends them, and a struct of `&mut` would be made and taken apart in each function.
fn tell_striped(
    built: Stripes,
    stripes: &mut [u32],
    list: &mut [u32],
    span: &mut [f64],
    stats: &mut [u64],
    value: &mut u64,
) -> u32
    ensures { striped_told built.least built.height built.stats stripes.old list.old span.old stats.old ≡ ((result, value.new), stripes.new, list.new, span.new, stats.new) }
{
    zero_rooms(span, stats);
    if (2 <= span.len()) & (4 <= stats.len()) {
        put_span(built, span);
        put_stats(built.stats, stats);
        *value = built.stats.stripes as u64;
        return 1;
    }
    stripes.fill(0);
    list.fill(0);
    tell_refusal(Refusal::NoRoom, value)
}

fn tell_unstriped(span: &mut [f64], stats: &mut [u64], value: &mut u64) -> u32
    ensures { unstriped_told span.old stats.old ≡ ((result, value.new), span.new, stats.new) }
{
    zero_rooms(span, stats);
    *value = 0;
    0
}

fn tell_refused(why: Refusal, span: &mut [f64], stats: &mut [u64], value: &mut u64) -> u32
    ensures { refused_told why span.old stats.old ≡ ((result, value.new), span.new, stats.new) }
{
    if why.zeroes_rooms() {
        zero_rooms(span, stats);
        return tell_refusal(why, value);
    }
    tell_refusal(why, value)
}

fn tell_built(
    answer: Result<Option<Stripes>, Refusal>,
    stripes: &mut [u32],
    list: &mut [u32],
    span: &mut [f64],
    stats: &mut [u64],
    value: &mut u64,
) -> u32
    ensures { built_told answer stripes.old list.old span.old stats.old ≡ ((result, value.new), stripes.new, list.new, span.new, stats.new) }
{
    match answer {
        Ok(Some(built)) => tell_striped(built, stripes, list, span, stats, value),
        Ok(None) => tell_unstriped(span, stats, value),
        Err(why) => tell_refused(why, span, stats, value),
    }
}

// Builds a ring's stripes. Least and height go to span, the four statistics to stats.
#[unsafe(no_mangle)]
pub extern "C" fn brothstitch_build_stripes(
    coords: &[i32],
    points: usize,
    threshold: usize,
    stripes: &mut [u32],
    list: &mut [u32],
    span: &mut [f64],
    stats: &mut [u64],
    value: &mut u64,
) -> u32
    ensures { built_all (stripes_built coords.now points threshold stripes.old list.old) span.old stats.old ≡ ((result, value.new), stripes.new, list.new, span.new, stats.new) }
{
    let answer = build_stripes(coords, points, threshold, stripes, list);
    tell_built(answer, stripes, list, span, stats, value)
}
