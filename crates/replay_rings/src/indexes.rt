// Questions on the indexes of a ring: its stripes with their statistics, and its packed tree.
ghost use Rattle.std.specs.Prelude.{◌≤◌, length, IfSome};

use lines::fields::Fields;
use lines::print;
use std::io;
use stripes_build::build_stripes;
use tree_build::build_tree;

// The numbers of a line's ring, into the room, its points and the threshold.
fn asked(mut fields: Fields, coords: &mut [i32]) -> Option<(usize, usize, usize)>
    ensures { IfSome result (λ r. r.0 ≤ length coords.old) }
{
    let n = fields.ring(coords)?;
    let points = fields.count()?;
    let threshold = fields.count()?;
    fields.end()?;
    Some((n, points, threshold))
}

// Least and height, then segments, stripes, entries in all, and entries in the fullest stripe.
fn stripes(rt: &impl Print, coords: &[i32], points: usize, threshold: usize) -> io::Result<()> {
    let mut stripes = [0u32; 256];
    let mut list = [0u32; 4096];
    match build_stripes(coords, points, threshold, &mut stripes, &mut list) {
        Ok(Some(built)) => {
            print::float(rt, built.least)?;
            print::space(rt)?;
            print::float(rt, built.height)?;
            let stats = built.stats;
            print!(rt; " {:016x} {:016x}", stats.segments, stats.stripes)?;
            print!(rt; " {:016x} {:016x}", stats.entries, stats.fullest)
        }
        Ok(None) => print::text(rt, b"none"),
        Err(r) => print::refused(rt, r),
    }
}

fn tree(rt: &impl Print, coords: &[i32], points: usize, threshold: usize) -> io::Result<()> {
    let mut bytes = [0u8; 1024];
    let mut work = [0u32; 4096];
    match build_tree(coords, points, threshold, &mut bytes, &mut work) {
        Ok(Some(used)) => match bytes.get(..used) {
            Some(packed) => print::bytes(rt, packed),
            None => print::text(rt, b"too long"),
        },
        Ok(None) => print::text(rt, b"none"),
        Err(r) => print::refused(rt, r),
    }
}

// Answers a line whose word is of this module; false where it is not, or where its fields are not good.
pub fn answer(rt: &impl Print, word: &[u8], fields: Fields) -> io::Result<bool> {
    let mut coords = [0i32; 64];
    let Some((n, points, threshold)) = asked(fields, &mut coords) else {
        return Ok(false);
    };
    match word {
        b"stripes" => stripes(rt, &coords[..n], points, threshold)?,
        b"tree" => tree(rt, &coords[..n], points, threshold)?,
        _ => return Ok(false),
    }
    Ok(true)
}
