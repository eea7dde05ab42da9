// An outline from a polygon in well-known binary, into lent room: read, judged by 01's rules, stored.
#![tactic(auto)]

ghost use Rattle.std.specs.Prelude.{◌≡◌, Bool, true, ℕ, ◌+◌, ◌*◌, ◌≤◌, length, Ok};
ghost use Rattle.wkb_fields.specs.Fields.{field_of};
ghost use Rattle.wkb_shape.specs.declared.WkbRefusal.{WkbRefusal};
ghost use Rattle.wkb_shape.specs.Wkb.{Ring};
ghost use Rattle.wkb_shape.specs.Inner.Laid.{points_of, rings_of, Whole};
ghost use Rattle.room.specs.Room.{write};
ghost use Rattle.wkb_read.specs.Stored.{stored_of, storable, all_storable, ring_coords, coords_of, sizes_of};
ghost use Rattle.wkb_read.specs.Judged.{fault_at, each_ring, shut, judged};
ghost use Rattle.wkb_read.specs.Read.{stored, wkb_read};

use answers::Refusal;
use floats::is_finite;
use outline_check::Outline;
use room::fill_from;
use wkb_fields::{ByteOrder, double_at, u32_at};
use wkb_shape::{WkbRefusal, shape};

// The place behind the header, where the first ring begins.
const HEADER: usize = 9;

// Bytes that are a polygon of so many rings, and the scale that its doubles are stored at.
#[derive(Clone, Copy)]
struct Polygon<'a> {
    bytes: &'a [u8],
    order: ByteOrder,
    rings: usize,
    scale: f64,
    ghost ends: { Whole bytes.now order rings },
}

impl<'a> Polygon<'a> {
    // A double, multiplied by the scale once and rounded.
    // That its bytes are there stays a clause, here and below: the place is another one at each call.
    fn rounded(self, at: usize) -> i64
        requires { at + 8 ≤ length self.bytes.now }
        ensures { result ≡ stored_of self.entry.scale (field_of self.entry.order 8 self.entry.bytes.now at) }
    {
        whole::round(double_at(self.bytes, self.order, at) * self.scale)
    }

    // Whether it can be stored.
    fn is_storable(self, at: usize) -> bool
        requires { at + 8 ≤ length self.bytes.now }
        ensures { result ≡ storable self.entry.scale (field_of self.entry.order 8 self.entry.bytes.now at) }
    {
        let x = double_at(self.bytes, self.order, at) * self.scale;
        let k = whole::round(x);
        is_finite(x) & i32::try_from(k).is_ok()
    }

    // Whether each coordinate of n points can be stored.
    fn all_storable(self, start: usize, n: usize) -> bool
        requires { start + 16 * n ≤ length self.bytes.now }
        ensures { result ≡ all_storable self.entry.scale (points_of self.entry.bytes.now self.entry.order n start) }
    {
        (0..n).all(|i| {
            let at = start + 16 * i;
            self.is_storable(at) & self.is_storable(at + 8)
        })
    }

    // Whether the first and the last of n points are stored alike; without points they are.
    fn is_shut(self, start: usize, n: usize) -> bool
        requires { start + 16 * n ≤ length self.bytes.now }
        ensures { result ≡ shut self.entry.scale (points_of self.entry.bytes.now self.entry.order n start) }
    {
        if n < 1 {
            return true;
        }
        let last = start + 16 * (n - 1);
        let x = self.rounded(start);
        let y = self.rounded(start + 8);
        (x == self.rounded(last)) & (y == self.rounded(last + 8))
    }

    // The refusal of the lowest ring that breaks a rule. The rule is asked of where a ring's points begin, and of how many they are.
    fn each_ring<F: Fn(usize, usize) -> bool, W: Fn(usize) -> WkbRefusal>(
        self,
        rule: F,
        why: W,
    ) -> Result<(), WkbRefusal>
        requires rules { (at n : ℕ) → at + 16 * n ≤ length self.bytes.now → F.pre rule at n }
        requires tells { W.IsAlwaysCallable why }
        ensures { (ok : Ring → Bool) (told : ℕ → WkbRefusal) → ((at n : ℕ) (r : Bool) → at + 16 * n ≤ length self.entry.bytes.now → F.post rule at n r → r ≡ ok (points_of self.entry.bytes.now self.entry.order n at)) → ((k : ℕ) (e : WkbRefusal) → W.post why k e → e ≡ told k) → result ≡ each_ring ok told (rings_of self.entry.bytes.now self.entry.order self.entry.rings 9) (Ok tt) }
    {
        let mut at = HEADER;
        for k in 0..self.rings {
            let points = u32_at(self.bytes, self.order, at) as usize;
            if !rule(at + 4, points) {
                return Err(why(k));
            }
            at = at + 4 + 16 * points;
        }
        Ok(())
    }

    // Rules 1, 2, 12 and 4 over the rings.
    fn judge(self) -> Result<(), WkbRefusal>
        ensures { result ≡ judged self.entry.scale (rings_of self.entry.bytes.now self.entry.order self.entry.rings 9) }
    {
        if self.rings < Outline::MIN_RINGS {
            return Err(WkbRefusal::Plain(Refusal::TooFew(0)));
        }
        self.each_ring(
            |_, n| Outline::MIN_POINTS as usize <= n,
            |k| WkbRefusal::Plain(Refusal::TooFew(k)),
        )?;
        if Outline::MAX_RINGS < self.rings {
            return Err(WkbRefusal::Plain(Refusal::TooMany(Outline::MAX_RINGS)));
        }
        self.each_ring(
            |_, n| n <= Outline::MAX_POINTS as usize,
            |k| WkbRefusal::Plain(Refusal::TooMany(k)),
        )?;
        self.each_ring(
            |at, n| self.all_storable(at, n),
            |k| WkbRefusal::Unstored(k),
        )?;
        self.each_ring(
            |at, n| self.is_shut(at, n),
            |k| WkbRefusal::Plain(Refusal::NotClosed(k)),
        )
    }

    // A double that can be stored, as it is stored.
    fn stored_at(self, at: usize) -> i32
        requires { (at + 8 ≤ length self.bytes.now) × (storable self.scale (field_of self.order 8 self.bytes.now at) ≡ true) }
        ensures { result ≡ stored_of self.entry.scale (field_of self.entry.order 8 self.entry.bytes.now at) }
    {
        self.rounded(at) as i32
    }

    // The numbers of n points, from a place on.
    fn put_ring(self, start: usize, n: usize, coords: &mut [i32], to: usize)
        requires { (start + 16 * n ≤ length self.bytes.now) × (to + 2 * n ≤ length coords.old) × (all_storable self.scale (points_of self.bytes.now self.order n start) ≡ true) }
        ensures { coords.new ≡ write coords.old to (ring_coords self.entry.scale (points_of self.entry.bytes.now self.entry.order n start)) }
    {
        for i in 0..n {
            let at = start + 16 * i;
            let c = to + 2 * i;
            coords[c] = self.stored_at(at);
            coords[c + 1] = self.stored_at(at + 8);
        }
    }

    // The numbers of all rings.
    fn put_coords(self, coords: &mut [i32])
        requires { (fault_at (all_storable self.scale) (rings_of self.bytes.now self.order self.rings 9) ≡ self.rings) × (length (coords_of self.scale (rings_of self.bytes.now self.order self.rings 9)) ≤ length coords.old) }
        ensures { coords.new ≡ write coords.old 0 (coords_of self.entry.scale (rings_of self.entry.bytes.now self.entry.order self.entry.rings 9)) }
    {
        let mut at = HEADER;
        let mut c: usize = 0;
        for _k in 0..self.rings {
            let points = u32_at(self.bytes, self.order, at) as usize;
            self.put_ring(at + 4, points, coords, c);
            at = at + 4 + 16 * points;
            c = c + 2 * points;
        }
    }

    // The point counts of all rings.
    fn put_sizes(self, sizes: &mut [u32])
        requires { self.rings ≤ length sizes.old }
        ensures { sizes.new ≡ write sizes.old 0 (sizes_of (rings_of self.entry.bytes.now self.entry.order self.entry.rings 9)) }
    {
        let mut at = HEADER;
        for k in 0..self.rings {
            let points = u32_at(self.bytes, self.order, at);
            sizes[k] = points;
            at = at + 4 + 16 * (points as usize);
        }
    }

    // The outline into its rooms, with zeros behind it; all zeros where a room is short.
    fn store(self, sizes: &mut [u32], coords: &mut [i32]) -> Result<(usize, usize), WkbRefusal>
        requires { fault_at (all_storable self.scale) (rings_of self.bytes.now self.order self.rings 9) ≡ self.rings }
        ensures { stored sizes.old coords.old self.entry.scale (rings_of self.entry.bytes.now self.entry.order self.entry.rings 9) ≡ (result, sizes.new, coords.new) }
    {
        let n = self.rings;
        // behind the header the bytes are counts of four and doubles of eight
        let numbers = (self.bytes.len() - HEADER - 4 * n) / 8;
        if (sizes.len() < n) | (coords.len() < numbers) {
            sizes.fill(0);
            coords.fill(0);
            return Err(WkbRefusal::Plain(Refusal::NoRoom));
        }
        self.put_sizes(sizes);
        self.put_coords(coords);
        fill_from(sizes, n, 0);
        fill_from(coords, numbers, 0);
        Ok((n, numbers))
    }
}

// Reads an outline: 5, then 10 and 11 in reading order, then 1, 2, 12 and 4 over the whole shape, and last 8, which alone touches room.
// It answers how many rings and how many numbers were stored, or a refusal.
pub fn read_wkb(
    bytes: &[u8],
    scale: f64,
    sizes: &mut [u32],
    coords: &mut [i32],
) -> Result<(usize, usize), WkbRefusal>
    ensures { wkb_read sizes.old coords.old scale bytes.now ≡ (result, sizes.new, coords.new) }
{
    if !(is_finite(scale) & (0.0 < scale)) {
        return Err(WkbRefusal::Plain(Refusal::BadScale));
    }
    let (order, rings) = shape(bytes)?;
    let polygon = Polygon {
        bytes,
        order,
        rings,
        scale,
    };
    polygon.judge()?;
    polygon.store(sizes, coords)
}
