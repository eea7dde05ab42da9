// What one ring of an outline gets when indexes are asked for, in the rooms that all rings share. The
// functions that are not methods are for the crate above, which has checked the rings.
#![tactic(auto)]

ghost use Rattle.std.specs.Prelude.{Ok, ◌≡◌, ◌&&◌, [], ◌∷◌, ◌+◌, ◌*◌, ◌≤◌, length, replicate};
ghost use Rattle.rings.specs.Ring.{wide};
ghost use Rattle.std.proofs.Math.Seq.{paste};
ghost use Rattle.room.specs.Numbers.{bit};
ghost use Rattle.room.specs.Room.{write};
ghost use Rattle.rings.specs.Checks.{ring_checked};
ghost use Rattle.outline_index.specs.Options.{default_options};
ghost use Rattle.outline_index.specs.Parts.{no_height, has_stripes, has_tree, says_under};
ghost use Rattle.outline_index.specs.Inner.Step.{ZeroFrom, with_tree, gained, row_numbers, stripes_fit, stripes_put, tree_fits, tree_put, Stepped};

use answers::Refusal;
use outline_table::Row;
use stripes_build::{Stripes, build_stripes};
use tree_build::build_tree;

// Which indexes are asked for, and how many segments a ring needs to get them.
#[derive(Clone, Copy)]
pub struct BuildOptions {
    pub enable_y_stripes: bool,
    pub enable_compressed_quad: bool,
    pub min_segments: usize,
}

impl BuildOptions {
    pub const DEFAULT_MIN_SEGMENTS: usize = 64;

    // The source's default.
    pub fn default_options() -> BuildOptions
        ensures { result ≡ default_options }
    {
        BuildOptions {
            enable_y_stripes: false,
            enable_compressed_quad: true,
            min_segments: BuildOptions::DEFAULT_MIN_SEGMENTS,
        }
    }

    // Whether a ring of n segments gets stripes.
    pub fn gives_stripes(self, n: usize) -> bool
        ensures { result ≡ has_stripes self n }
    {
        self.enable_y_stripes & !(n < self.min_segments)
    }

    // Whether it gets a tree.
    pub fn gives_tree(self, n: usize) -> bool
        ensures { result ≡ has_tree self n }
    {
        self.enable_compressed_quad & !(n < self.min_segments)
    }

    // Whether an index is asked for, and the ring is too small for it.
    pub fn says_under(self, n: usize) -> bool
        ensures { result ≡ says_under self n }
    {
        (self.enable_y_stripes | self.enable_compressed_quad) & (n < self.min_segments)
    }
}

// Where the next ring's part starts in each room that all rings share.
#[derive(Clone, Copy)]
pub struct Places {
    pub stripes: usize,
    pub list: usize,
    pub bytes: usize,
}

// What one ring got: 1 for stripes and 2 for a tree, the stripes' least y and height, and how many
// stripes, entries, entries in the fullest stripe and bytes. They are the numbers of the ring's row as C reads the table, so
// `kinds` is a number and no enum, and a ring without stripes has zeros there.
#[derive(Clone, Copy)]
pub struct Gain {
    pub kinds: usize,
    pub least: f64,
    pub height: f64,
    pub stripes: usize,
    pub entries: usize,
    pub fullest: usize,
    pub bytes: usize,
}

// One ring's step: the ring, which passed the checks, what is asked for, and where its parts start.
#[derive(Clone, Copy)]
struct Step<'a> {
    ring: &'a [i32],
    points: usize,
    options: BuildOptions,
    at: Places,
    ghost checked: { ring_checked ring.now points ≡ Ok tt },
}

impl<'a> Step<'a> {
    // The stripes of the ring, behind those of the rings before it.
    fn put_stripes(self, stripes: &mut [u32], list: &mut [u32]) -> Result<Option<Stripes>, Refusal>
        requires zero_from { ZeroFrom self.at.stripes stripes.old }
        requires zero_from_2 { ZeroFrom self.at.list list.old }
        ensures { stripes_put self.entry.options (wide self.entry.ring.now) self.entry.points self.entry.at stripes.old list.old ≡ (result, stripes.new, list.new) }
    {
        if !self.options.gives_stripes(self.points - 1) {
            return Ok(None);
        }
        build_stripes(
            self.ring,
            self.points,
            0,
            &mut stripes[self.at.stripes..],
            &mut list[self.at.list..],
        )
    }

    // Its tree, behind those of the rings before it.
    fn put_tree(self, bytes: &mut [u8], work: &mut [u32]) -> Result<Option<usize>, Refusal>
        requires zero_from { ZeroFrom self.at.bytes bytes.old }
        requires work_value { work.old ≡ replicate (length work.old) 0 }
        ensures { tree_put self.entry.options (wide self.entry.ring.now) self.entry.points self.entry.at bytes.old work.old ≡ (result, bytes.new, work.new) }
    {
        if !self.options.gives_tree(self.points - 1) {
            return Ok(None);
        }
        build_tree(self.ring, self.points, 0, &mut bytes[self.at.bytes..], work)
    }
}

// What the two builds come to together.
fn gain_of(striped: Option<Stripes>, treed: Option<usize>) -> Gain
    ensures { Some result ≡ gained (Ok striped) (Ok treed) }
{
    let gain = match striped {
        Some(stripes) => Gain {
            kinds: 1,
            least: stripes.least,
            height: stripes.height,
            stripes: stripes.stats.stripes,
            entries: stripes.stats.entries,
            fullest: stripes.stats.fullest,
            bytes: 0,
        },
        None => Gain {
            kinds: 0,
            least: 0.0,
            height: 0.0,
            stripes: 0,
            entries: 0,
            fullest: 0,
            bytes: 0,
        },
    };
    match treed {
        Some(bytes) => Gain {
            kinds: gain.kinds + 2,
            bytes,
            ..gain
        },
        None => gain,
    }
}

// The indexes of a ring, behind those of the rings before it. For the crate above, which has checked
// the rings. The rooms stay parameters of their own: the promise names them so, and a struct of `&mut` slices would have to
// promise of each that it is still the room that was lent.
pub fn index_ring(
    ring: &[i32],
    points: usize,
    options: BuildOptions,
    at: Places,
    stripes: &mut [u32],
    list: &mut [u32],
    bytes: &mut [u8],
    work: &mut [u32],
) -> Option<Gain>
    requires points_value { ring_checked ring.now points ≡ Ok tt }
    requires zero_from { ZeroFrom at.stripes stripes.old }
    requires zero_from_2 { ZeroFrom at.list list.old }
    requires zero_from_3 { ZeroFrom at.bytes bytes.old }
    requires work_value { work.old ≡ replicate (length work.old) 0 }
    ensures { Stepped options (wide ring.now) points (stripes_fit options (wide ring.now) points at stripes.old list.old && tree_fits options (wide ring.now) points at bytes.old work.old) at stripes.old list.old bytes.old work.old result stripes.new list.new bytes.new work.new }
{
    let step = Step {
        ring,
        points,
        options,
        at,
    };
    let striped = step.put_stripes(stripes, list).ok()?;
    let treed = step.put_tree(bytes, work).ok()?;
    Some(gain_of(striped, treed))
}

// Writes ring k's row of the table, in the order that `Row` names, and its span, by what it got. For the crate above, which has
// measured both rooms.
pub fn put_ring(
    table: &mut [u64],
    spans: &mut [f64],
    k: usize,
    n: usize,
    options: BuildOptions,
    at: Places,
    gain: Gain,
)
    requires { (10 * k + 10 ≤ length table.old) × (2 * k + 2 ≤ length spans.old) }
    ensures table_after { table.new ≡ paste table.old (10 * k) (row_numbers n options at gain) 10 }
    ensures spans_after { spans.new ≡ write spans.old (2 * k) (gain.least ∷ gain.height ∷ []) }
{
    let row = [
        n as u64,
        u64::from(options.says_under(n)),
        gain.kinds as u64,
        at.stripes as u64,
        gain.stripes as u64,
        at.list as u64,
        gain.entries as u64,
        gain.fullest as u64,
        at.bytes as u64,
        gain.bytes as u64,
    ];
    let start = Row::NUMBERS * k;
    table[start..start + Row::NUMBERS].copy_from_slice(&row);
    let place = 2 * k;
    spans[place] = gain.least;
    spans[place + 1] = gain.height;
}
