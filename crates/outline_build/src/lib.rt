// Builds the indexes of all rings of an outline in lent room, and tells their statistics.
#![tactic(auto)]

ghost use Rattle.std.specs.Prelude.{Ok, ◌≡◌, true, ◌+◌, ◌*◌, ◌≤◌, length};
ghost use Rattle.outline_check.specs.Outline.{rings};
ghost use Rattle.outline_check.specs.Rules.{shape_checked};
ghost use Rattle.outline_build.specs.Indexes.{zeroed, indexed, indexes_built};
ghost use Rattle.outline_build.specs.Statistics.{stats_at};
ghost use Rattle.outline_build.specs.Inner.Standing.{Zero, AllBuilt};

use answers::Refusal;
use outline_check::check_shape;
use outline_index::{BuildOptions, Places, index_ring, put_ring};
use outline_table::Row;
use stripes_build::StripesStats;

// Statistics of a ring's build. `used_y_stripes` stays beside `y_stripes`: the source tells both, and `stats_at` promises both.
#[derive(Clone, Copy)]
pub struct RingBuildStats {
    pub segment_count: usize,
    pub below_threshold: bool,
    pub used_compressed_quad: bool,
    pub used_y_stripes: bool,
    pub y_stripes: Option<StripesStats>,
}

// The rooms stay parameters of their own, here and below: a struct of six `&mut` slices has to promise of each, in each
// contract, that it is still the room that was lent, which is six clauses more than it saves.

// 8: zeros in all lent rooms.
fn zero_all(
    table: &mut [u64],
    spans: &mut [f64],
    stripes: &mut [u32],
    list: &mut [u32],
    bytes: &mut [u8],
    work: &mut [u32],
)
    ensures { zeroed table.old spans.old stripes.old list.old bytes.old work.old (Err Refusal.NoRoom) ≡ (Err Refusal.NoRoom, table.new, spans.new, stripes.new, list.new, bytes.new, work.new) }
{
    table.fill(0);
    spans.fill(0.0);
    stripes.fill(0);
    list.fill(0);
    bytes.fill(0);
    work.fill(0);
}

// An outline that passed rules 1 to 4, and which indexes its rings get.
// It is not outline_check's `Rings`, which knows rules 1 to 3: a ring's index asks that the ring is closed too, which is rule 4.
#[derive(Clone, Copy)]
struct Shaped<'a> {
    sizes: &'a [u32],
    coords: &'a [i32],
    options: BuildOptions,
    ghost shaped: { shape_checked sizes.now coords.now ≡ Ok tt },
}

impl<'a> Shaped<'a> {
    // Ring after ring, in rooms that are zero, of which those for the rows and the spans are long enough.
    // It says whether the others were.
    fn index_rings(
        self,
        table: &mut [u64],
        spans: &mut [f64],
        stripes: &mut [u32],
        list: &mut [u32],
        bytes: &mut [u8],
        work: &mut [u32],
    ) -> bool
        requires zero { Zero table.old spans.old stripes.old list.old bytes.old work.old }
        requires sizes_in_bounds { (10 * rings self.sizes.now ≤ length table.old) × (2 * rings self.sizes.now ≤ length spans.old) }
        ensures { AllBuilt self.entry.options self.entry.sizes.now self.entry.coords.now table.old spans.old stripes.old list.old bytes.old work.old result table.new spans.new stripes.new list.new bytes.new work.new }
    {
        let mut at = Places {
            stripes: 0,
            list: 0,
            bytes: 0,
        };
        let mut from: usize = 0;
        for (k, size) in self.sizes.iter().enumerate() {
            let points = *size as usize;
            let end = from + 2 * points;
            let Some(gain) = index_ring(
                &self.coords[from..end],
                points,
                self.options,
                at,
                stripes,
                list,
                bytes,
                work,
            ) else {
                return false;
            };
            put_ring(table, spans, k, points - 1, self.options, at, gain);
            at = Places {
                stripes: at.stripes + 2 * gain.stripes,
                list: at.list + gain.entries,
                bytes: at.bytes + gain.bytes,
            };
            from = end;
        }
        true
    }

    // The indexes of an outline that passed the checks, in rooms that are zero.
    fn build_zeroed(
        self,
        table: &mut [u64],
        spans: &mut [f64],
        stripes: &mut [u32],
        list: &mut [u32],
        bytes: &mut [u8],
        work: &mut [u32],
    ) -> Result<usize, Refusal>
        requires { Zero table.old spans.old stripes.old list.old bytes.old work.old }
        ensures { indexed table.old spans.old stripes.old list.old bytes.old work.old self.entry.options self.entry.sizes.now self.entry.coords.now ≡ (result, table.new, spans.new, stripes.new, list.new, bytes.new, work.new) }
    {
        let n = self.sizes.len();
        if (table.len() < Row::NUMBERS * n) | (spans.len() < 2 * n) {
            return Err(Refusal::NoRoom);
        }
        if self.index_rings(table, spans, stripes, list, bytes, work) {
            return Ok(n);
        }
        zero_all(table, spans, stripes, list, bytes, work);
        Err(Refusal::NoRoom)
    }
}

// Builds the indexes of all rings. The table has ten numbers a ring, as `Row` names them; `spans` has two
// a ring, least y and height. The stripes, lists and bytes of all rings stand in one room each, in ring
// order.
pub fn build_indexes(
    sizes: &[u32],
    coords: &[i32],
    options: BuildOptions,
    table: &mut [u64],
    spans: &mut [f64],
    stripes: &mut [u32],
    list: &mut [u32],
    bytes: &mut [u8],
    work: &mut [u32],
) -> Result<usize, Refusal>
    ensures { indexes_built sizes.now coords.now options table.old spans.old stripes.old list.old bytes.old work.old ≡ (result, table.new, spans.new, stripes.new, list.new, bytes.new, work.new) }
{
    check_shape(sizes, coords)?;
    zero_all(table, spans, stripes, list, bytes, work);
    let outline = Shaped {
        sizes,
        coords,
        options,
    };
    outline.build_zeroed(table, spans, stripes, list, bytes, work)
}

// What ring k's row tells of its build, as it stands.
#[tactic(auto, unfolding(crate::specs::Statistics::stats_at))]
pub fn index_stats(table: &[u64], k: usize) -> RingBuildStats
    ensures { result ≡ stats_at table.now k }
{
    let segments = Row::number(table, k, Row::SEGMENTS);
    let under = Row::number(table, k, Row::UNDER);
    let kinds = Row::number(table, k, Row::KINDS);
    let stripes = Row::number(table, k, Row::STRIPES);
    let entries = Row::number(table, k, Row::ENTRIES);
    let fullest = Row::number(table, k, Row::FULLEST);
    let striped = kinds % 2 == 1;
    RingBuildStats {
        segment_count: segments,
        below_threshold: under == 1,
        used_compressed_quad: kinds / 2 % 2 == 1,
        used_y_stripes: striped,
        y_stripes: striped.then_some(StripesStats {
            segments,
            stripes,
            entries,
            fullest,
        }),
    }
}
