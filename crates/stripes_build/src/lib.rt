// Builds a ring's stripes in lent room.
#![tactic(auto)]

ghost use Rattle.std.specs.Prelude.{◌≡◌, ◌+◌, ◌*◌, ◌<◌, ◌≤◌, length, replicate};
ghost use Rattle.rings.specs.Ring.{wide};
ghost use Rattle.room.specs.Room.{pad};
ghost use Rattle.stripes_index.specs.Index.{crosses, table_of, list_of};
ghost use Rattle.stripes_index.specs.Inner.States.{table_at, list_at_of};
ghost use Rattle.stripes_build.specs.Build.{indexed, from_threshold, stripes_built};
ghost use Rattle.stripes_build.specs.Inner.Fill.{filled_of};

use answers::Refusal;
use room::wide;
use stripes_count::stripe_count;
use stripes_index::{Cut, greatest_y, least_y, prepare};

// What was built: how many segments and stripes, entries in all, and entries in the fullest stripe.
#[derive(Clone, Copy, Debug, PartialEq, Eq)]
pub struct StripesStats {
    pub segments: usize,
    pub stripes: usize,
    pub entries: usize,
    pub fullest: usize,
}

impl StripesStats {
    // More stripes than this are refused.
    pub const MAX_STRIPES: u64 = 65536;
}

// An index: its least y and height, with its statistics.
#[derive(Clone, Copy, Debug, PartialEq)]
pub struct Stripes {
    pub least: f64,
    pub height: f64,
    pub stats: StripesStats,
}

// A ring that passed the checks, and how many segments it has.
#[derive(Clone, Copy)]
struct Sound<'a> {
    ring: &'a [i32],
    segments: usize,
    ghost checked: { (segments * 2 + 2 ≤ length ring.now) × (0 < segments) × (segments ≤ 4096) },
}

impl<'a> Sound<'a> {
    // Enters segment i in each stripe that it crosses, behind the segments before it.
    fn enter_segment(self, cut: Cut, i: usize, stripes: &mut [u32], list: &mut [u32])
        requires i_bound { (i < self.segments) × (0 < cut.stripes) × (cut.stripes * 2 ≤ length stripes.old) }
        requires m_in_bounds { length (list_of (crosses (wide self.ring.now) cut.least cut.height cut.stripes) self.segments cut.stripes) ≤ length list.old }
        requires stripes_value { stripes.old ≡ pad (length stripes.old) (table_at (crosses (wide self.ring.now) cut.least cut.height cut.stripes) cut.stripes self.segments i) }
        requires list_value { list.old ≡ pad (length list.old) (list_at_of (crosses (wide self.ring.now) cut.least cut.height cut.stripes) cut.stripes self.segments i) }
        ensures stripes_after { stripes.new ≡ pad (length stripes.old) (table_at (crosses (wide self.entry.ring.now) cut.least cut.height cut.stripes) cut.stripes self.entry.segments (i + 1)) }
        ensures list_after { list.new ≡ pad (length list.old) (list_at_of (crosses (wide self.entry.ring.now) cut.least cut.height cut.stripes) cut.stripes self.entry.segments (i + 1)) }
    {
        let (first, last) = cut.crossed(self.ring, i);
        for s in first..=last {
            let count = stripes[s * 2 + 1];
            let at = wide(stripes[s * 2]) + wide(count);
            list[at] = i as u32;
            stripes[s * 2 + 1] = count + 1;
        }
    }

    // Enters all segments behind the starts, in a list room that is zero.
    fn enter_all(self, cut: Cut, stripes: &mut [u32], list: &mut [u32])
        requires m_bound { (0 < cut.stripes) × (cut.stripes * 2 ≤ length stripes.old) }
        requires m_in_bounds { length (list_of (crosses (wide self.ring.now) cut.least cut.height cut.stripes) self.segments cut.stripes) ≤ length list.old }
        requires stripes_value { stripes.old ≡ pad (length stripes.old) (table_at (crosses (wide self.ring.now) cut.least cut.height cut.stripes) cut.stripes self.segments 0) }
        requires list_value { list.old ≡ replicate (length list.old) 0 }
        ensures stripes_after { stripes.new ≡ pad (length stripes.old) (table_of (crosses (wide self.entry.ring.now) cut.least cut.height cut.stripes) self.entry.segments cut.stripes) }
        ensures list_after { list.new ≡ pad (length list.old) (list_of (crosses (wide self.entry.ring.now) cut.least cut.height cut.stripes) self.entry.segments cut.stripes) }
    {
        for i in 0..self.segments {
            self.enter_segment(cut, i, stripes, list);
        }
    }

    // Counts, places the starts and enters, in room that is zero.
    // That the rooms are zero stays a clause, here and below: they are lent as `&mut`, and what they hold changes.
    fn fill(
        self,
        cut: Cut,
        stripes: &mut [u32],
        list: &mut [u32],
    ) -> Result<Option<Stripes>, Refusal>
        requires m_bound { (0 < cut.stripes) × (cut.stripes ≤ 65536) × (cut.stripes * 2 ≤ length stripes.old) }
        requires stripes_value { stripes.old ≡ replicate (length stripes.old) 0 }
        requires list_value { list.old ≡ replicate (length list.old) 0 }
        ensures { filled_of (wide self.entry.ring.now) self.entry.segments cut.least cut.height cut.stripes stripes.old list.old ≡ (result, stripes.new, list.new) }
    {
        let totals = prepare(self.ring, self.segments, cut, stripes);
        if list.len() < totals.entries {
            stripes.fill(0);
            return Err(Refusal::NoRoom);
        }
        self.enter_all(cut, stripes, list);
        let stats = StripesStats {
            segments: self.segments,
            stripes: cut.stripes,
            entries: totals.entries,
            fullest: totals.fullest,
        };
        Ok(Some(Stripes {
            least: cut.least,
            height: cut.height,
            stats,
        }))
    }

    // The index of a ring that reached the threshold. The room is zero.
    fn build_checked(
        self,
        stripes: &mut [u32],
        list: &mut [u32],
    ) -> Result<Option<Stripes>, Refusal>
        requires stripes_value { stripes.old ≡ replicate (length stripes.old) 0 }
        requires list_value { list.old ≡ replicate (length list.old) 0 }
        ensures { indexed (wide self.entry.ring.now) self.entry.segments stripes.old list.old ≡ (result, stripes.new, list.new) }
    {
        let called = stripe_count(self.ring, self.segments);
        if StripesStats::MAX_STRIPES < called {
            return Err(Refusal::NoRoom);
        }
        let m = called as usize;
        if stripes.len() < m * 2 {
            return Err(Refusal::NoRoom);
        }
        let least = least_y(self.ring, self.segments);
        let cut = Cut {
            least,
            height: greatest_y(self.ring, self.segments) - least,
            stripes: m,
        };
        self.fill(cut, stripes, list)
    }

    // The same from the threshold on, in any room.
    fn build_sound(
        self,
        threshold: usize,
        stripes: &mut [u32],
        list: &mut [u32],
    ) -> Result<Option<Stripes>, Refusal>
        ensures { from_threshold (wide self.entry.ring.now) self.entry.segments threshold stripes.old list.old ≡ (result, stripes.new, list.new) }
    {
        stripes.fill(0);
        list.fill(0);
        if self.segments < threshold {
            return Ok(None);
        }
        self.build_checked(stripes, list)
    }
}

// Builds the index of one ring in lent room, two numbers a stripe and one for each entry. A ring of
// fewer segments than the threshold gets `None`, and its room is zero. A search is lent the used part of
// the room for the stripes, two numbers for each of the stripes told: zeros behind it would count as
// stripes.
pub fn build_stripes(
    coords: &[i32],
    points: usize,
    threshold: usize,
    stripes: &mut [u32],
    list: &mut [u32],
) -> Result<Option<Stripes>, Refusal>
    ensures { stripes_built coords.now points threshold stripes.old list.old ≡ (result, stripes.new, list.new) }
{
    rings::check_ring(coords, points)?;
    let ring = Sound {
        ring: coords,
        segments: points - 1,
    };
    ring.build_sound(threshold, stripes, list)
}
