// The inside question by an outline's points alone. It is lent no record and no index, and so believes nothing that it doesn't work out itself.
#![tactic(auto)]

ghost use Rattle.std.specs.Prelude.{◌≡◌};
ghost use Rattle.rings.specs.I32s.{I32s};
ghost use Rattle.outline_agree.specs.Plain.{plain_inside};

use answers::Answer;
use boxes::Point;
use outline_ask::inside;
use outline_check::Outline;
use outline_record::make_boxes;
use outline_ring::Indexes;

// Whatever is lent as a slice of i32 is a list of i32 numbers. Each number is read, since reading it is what tells its range.
fn lent_numbers(coords: &[i32])
    ensures { I32s coords.now }
{
    for number in coords {
        let _read = *number;
    }
}

// Whether the outline holds p: checks 1 to 5, the box of each ring from its points, then the question with every ring scanned. The room for the boxes is
// four numbers for each of 64 rings, and a table of one zero tells of no index.
pub fn inside_plain(outline: Outline, sizes: &[u32], coords: &[i32], p: Point, edge: bool) -> Answer
    ensures { result ≡ plain_inside outline sizes.now coords.now p edge }
{
    lent_numbers(coords);
    let mut boxes = [0i32; 256];
    make_boxes(outline, sizes, coords, &mut boxes)?;
    let lent = Indexes {
        table: &[0],
        spans: &[0.0],
        stripes: &[0],
        list: &[0],
        bytes: &[0],
    };
    inside(outline, sizes, coords, &boxes, lent, p, edge)
}
