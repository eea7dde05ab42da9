// The inside question of an outline, with the record and the indexes that the library makes of it.
use answers::Answer;
use boxes::Point;
use lines::fields::Fields;
use lines::print;
use outline_ask::inside;
use outline_build::build_indexes;
use outline_check::{Outline, RaycastMode};
use outline_index::BuildOptions;
use outline_record::make_boxes;
use outline_ring::Indexes;
use std::io;

// What a line asks of which outline.
#[derive(Clone, Copy)]
struct Question<'a> {
    outline: Outline,
    sizes: &'a [u32],
    coords: &'a [i32],
    kinds: u64,
    p: Point,
    edge: bool,
}

// `capi` reads its mode and options off C's numbers, here they are fields of a line: two lines each, no plainer as one.
fn mode_of(integer: bool) -> RaycastMode {
    if integer {
        RaycastMode::Integer
    } else {
        RaycastMode::Float
    }
}

// Bit 0 asks for stripes, bit 1 for trees.
fn options_of(kinds: u64) -> BuildOptions {
    BuildOptions {
        enable_y_stripes: kinds % 2 == 1,
        enable_compressed_quad: kinds / 2 % 2 == 1,
        min_segments: 0,
    }
}

// The question of a line's fields. Its rings and coordinates are read into the rooms; a byte a ring is its point count.
fn asked<'a>(
    mut fields: Fields,
    sizes: &'a mut [u32; 32],
    coords: &'a mut [i32; 64],
) -> Option<Question<'a>> {
    let mut counts = [0u8; 32];
    let rings = fields.bytes(&mut counts)?;
    for (size, count) in sizes.iter_mut().zip(&counts) {
        *size = u32::from(*count);
    }
    let n = fields.ring(coords)?;
    let scale = fields.float()?;
    let mode = mode_of(fields.yes()?);
    let kinds = fields.number()?;
    let x = fields.float()?;
    let y = fields.float()?;
    let edge = fields.yes()?;
    fields.end()?;
    if 3 < kinds {
        return None;
    }
    Some(Question {
        outline: Outline::new_with_mode(scale, mode),
        sizes: &sizes[..rings],
        coords: &coords[..n],
        kinds,
        p: Point { x, y },
        edge,
    })
}

// The record and the indexes, then the answer through them.
fn answer_to(q: Question) -> Answer {
    let mut boxes = [0i32; 128];
    make_boxes(q.outline, q.sizes, q.coords, &mut boxes)?;
    let mut table = [0u64; 320];
    let mut spans = [0.0; 64];
    let mut stripes = [0u32; 4096];
    let mut list = [0u32; 4096];
    let mut bytes = [0u8; 4096];
    let mut work = [0u32; 4096];
    build_indexes(
        q.sizes,
        q.coords,
        options_of(q.kinds),
        &mut table,
        &mut spans,
        &mut stripes,
        &mut list,
        &mut bytes,
        &mut work,
    )?;
    let lent = Indexes {
        table: &table,
        spans: &spans,
        stripes: &stripes,
        list: &list,
        bytes: &bytes,
    };
    inside(q.outline, q.sizes, q.coords, &boxes, lent, q.p, q.edge)
}

fn test(rt: &impl Print, fields: Fields) -> io::Result<bool> {
    let mut sizes = [0u32; 32];
    let mut coords = [0i32; 64];
    let Some(question) = asked(fields, &mut sizes, &mut coords) else {
        return Ok(false);
    };
    print::said(rt, answer_to(question))?;
    Ok(true)
}

// Answers a line whose word is of this module; false where it is not, or where its fields are not good.
pub fn answer(rt: &impl Print, word: &[u8], fields: Fields) -> io::Result<bool> {
    match word {
        b"inside" => test(rt, fields),
        _ => Ok(false),
    }
}
