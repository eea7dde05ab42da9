// "12 segments make a leaf; 13 split. 13 segments that are all one same point go to depth 64."
ghost use Rattle.std.specs.Prelude.{◌*◌, ◌≤◌, length};

use std::io;
use tree_build::build_tree;

// How many bytes the tree of a ring takes, and the first 24 of them.
fn tree_in(
    rt: &impl Print,
    coords: &[i32],
    points: usize,
    bytes: &mut [u8],
    work: &mut [u32],
) -> io::Result<()> {
    match build_tree(coords, points, 0, bytes, work) {
        Ok(Some(used)) => {
            print!(rt; "{used} bytes:")?;
            for b in bytes.iter().take(used.min(24)) {
                print!(rt; " {b:02x}")?;
            }
            println!(rt)
        }
        Ok(None) => println!(rt; "none"),
        Err(r) => println!(rt; "{r}"),
    }
}

// Along the x axis by ones. What stands behind is zero, so the last segment goes back to the start.
fn along(coords: &mut [i32], segments: usize)
    requires { (segments * 2 ≤ length coords.old) × (segments ≤ 13) }
{
    for i in 0..segments {
        coords[i * 2] = i as i32;
    }
}

fn row(rt: &impl Print, coords: &mut [i32], segments: usize) -> io::Result<()>
    requires { (segments * 2 ≤ length coords.old) × (segments ≤ 13) }
{
    along(coords, segments);
    let mut bytes = [0u8; 32];
    let mut work = [0u32; 32];
    print!(rt; "{segments} segments: ")?;
    tree_in(rt, coords, segments + 1, &mut bytes, &mut work)
}

// Of 13 the root keeps the step to the middle and the way back; five steps are west, six east.
pub fn rows(rt: &impl Print) -> io::Result<()> {
    let mut short = [0i32; 26];
    row(rt, &mut short, 12)?;
    let mut long = [0i32; 28];
    row(rt, &mut long, 13)
}

// 13 segments of one point, in that much work room. All 13 go north-east each time.
fn one_point_in(rt: &impl Print, work: &mut [u32]) -> io::Result<()> {
    let ring = [0i32; 28];
    let mut bytes = [0u8; 444];
    let numbers = work.len();
    print!(rt; "13 segments of one point, {numbers} work numbers: ")?;
    tree_in(rt, &ring, 14, &mut bytes, work)
}

// Depths 0 to 64 are 65 nodes, for which 65 * 6 + 13 = 403 work numbers are called for.
pub fn one_point(rt: &impl Print) -> io::Result<()> {
    one_point_in(rt, &mut [0u32; 403])?;
    one_point_in(rt, &mut [0u32; 402])
}
