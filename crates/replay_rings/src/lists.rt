// Questions on the segments whose height range holds a height: by scan, by the ring's stripes, by its tree.
ghost use Rattle.std.specs.Prelude.{◌≤◌, length, IfSome};

use answers::Refusal;
use lines::fields::Fields;
use lines::print;
use std::io;
use stripes_build::build_stripes;
use stripes_find::{StripeIndex, stripes_list};
use tree_build::build_tree;
use tree_find::tree_list;

// The numbers of a line's ring, into the room, its points and the height.
fn asked(mut fields: Fields, coords: &mut [i32]) -> Option<(usize, usize, f64)>
    ensures { IfSome result (λ r. r.0 ≤ length coords.old) }
{
    let n = fields.ring(coords)?;
    let points = fields.count()?;
    let y = fields.float()?;
    fields.end()?;
    Some((n, points, y))
}

// How many numbers there are, and the numbers; or the refusal.
fn listed(rt: &impl Print, answer: Result<usize, Refusal>, out: &[u32]) -> io::Result<()> {
    match answer {
        Ok(count) => {
            print!(rt; "{count:016x}")?;
            for x in out.iter().take(count) {
                print!(rt; " {x:016x}")?;
            }
            Ok(())
        }
        Err(r) => print::refused(rt, r),
    }
}

fn by_scan(rt: &impl Print, coords: &[i32], points: usize, y: f64) -> io::Result<()> {
    let mut out = [0u32; 64];
    let answer = rings::scan(coords, points, y, &mut out);
    listed(rt, answer, &out)
}

// Through the used part of the stripes, two numbers a stripe, and of the list.
fn by_stripes(rt: &impl Print, coords: &[i32], points: usize, y: f64) -> io::Result<()> {
    let mut stripes = [0u32; 256];
    let mut list = [0u32; 4096];
    let mut out = [0u32; 64];
    match build_stripes(coords, points, 0, &mut stripes, &mut list) {
        Ok(Some(built)) => {
            let used = built.stats.stripes;
            let entries = built.stats.entries;
            if (128 < used) | (4096 < entries) {
                return print::text(rt, b"too long");
            }
            let index = StripeIndex {
                least: built.least,
                height: built.height,
                stripes: &stripes[..used * 2],
                list: &list[..entries],
            };
            let answer = stripes_list(coords, points, index, y, &mut out);
            listed(rt, answer, &out)
        }
        Ok(None) => print::text(rt, b"none"),
        Err(r) => print::refused(rt, r),
    }
}

fn by_tree(rt: &impl Print, coords: &[i32], points: usize, y: f64) -> io::Result<()> {
    let mut bytes = [0u8; 1024];
    let mut work = [0u32; 4096];
    let mut out = [0u32; 64];
    match build_tree(coords, points, 0, &mut bytes, &mut work) {
        Ok(Some(used)) => {
            let Some(packed) = bytes.get(..used) else {
                return print::text(rt, b"too long");
            };
            let answer = tree_list(coords, points, packed, y, &mut out);
            listed(rt, answer, &out)
        }
        Ok(None) => print::text(rt, b"none"),
        Err(r) => print::refused(rt, r),
    }
}

// Answers a line whose word is of this module; false where it is not, or where its fields are not good.
pub fn answer(rt: &impl Print, word: &[u8], fields: Fields) -> io::Result<bool> {
    let mut coords = [0i32; 64];
    let Some((n, points, y)) = asked(fields, &mut coords) else {
        return Ok(false);
    };
    match word {
        b"list_scan" => by_scan(rt, &coords[..n], points, y)?,
        b"list_stripes" => by_stripes(rt, &coords[..n], points, y)?,
        b"list_tree" => by_tree(rt, &coords[..n], points, y)?,
        _ => return Ok(false),
    }
    Ok(true)
}
