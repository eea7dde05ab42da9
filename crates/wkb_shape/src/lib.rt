// A polygon in well-known binary (OGC 06-103r4): its refusals, and the pass over all of its bytes, which finds out whether they are one polygon.
#![tactic(auto)]

ghost use Rattle.std.specs.Prelude.{◌≡◌, ◌+◌, ◌*◌, ◌≤◌, length};
ghost use Rattle.wkb_shape.specs.declared.WkbRefusal.TheVariants.{Plain};
ghost use Rattle.wkb_shape.specs.Refusals.{wkb_number, wkb_place};
ghost use Rattle.wkb_shape.specs.Wkb.{field, points, rings, order_at, type_at, count_at, header, whole};
ghost use Rattle.wkb_shape.specs.Inner.Laid.{end_of, value_of, order_told, header_told, shape_told};

use answers::Refusal;
use std::error::Error;
use std::fmt;
use wkb_fields::{ByteOrder, u32_at};

// The type of a polygon; clause 8 of OGC 06-103r4 has a number for each kind of geometry.
const POLYGON: u32 = 3;

// What only reading well-known binary refuses, and 01's own refusals.
#[derive(Clone, Copy, Debug, PartialEq, Eq)]
pub enum WkbRefusal {
    // the bytes end within a field, or go on behind the last one; the place of the first byte of that field, or of what goes on
    Ends(usize),
    // a byte order or a type that is unknown; the place of its first byte
    Unknown(usize),
    // a coordinate that cannot be stored; the ring
    Unstored(usize),
    Plain(Refusal),
}

impl WkbRefusal {
    // 02's number of the refusal, or 01's.
    pub fn number(self) -> u32
        ensures { result ≡ wkb_number self }
    {
        match self {
            WkbRefusal::Ends(_) => 10,
            WkbRefusal::Unknown(_) => 11,
            WkbRefusal::Unstored(_) => 12,
            WkbRefusal::Plain(why) => why.number(),
        }
    }

    pub fn place(self) -> usize
        ensures { result ≡ wkb_place self }
    {
        match self {
            WkbRefusal::Ends(at) => at,
            WkbRefusal::Unknown(at) => at,
            WkbRefusal::Unstored(ring) => ring,
            WkbRefusal::Plain(why) => why.place(),
        }
    }
}

// As 01's refusals are printed.
impl fmt::Display for WkbRefusal {
    fn fmt<W: fmt::Write>(&self, f: &mut fmt::Formatter<W>) -> fmt::Result {
        write!(f, "refusal {}, place {}", self.number(), self.place())
    }
}

impl Error for WkbRefusal {}

// 01's refusals are among these.
impl From<Refusal> for WkbRefusal {
    ghost from_gives = { λ why e. e ≡ Plain why };

    fn from(plain: Refusal) -> WkbRefusal {
        WkbRefusal::Plain(plain)
    }
}

// A place within the bytes, or at their end, and the byte order that the fields from there on are read in.
#[derive(Clone, Copy)]
struct Reader<'a> {
    bytes: &'a [u8],
    order: ByteOrder,
    at: usize,
    ghost within: { at ≤ length bytes.now },
}

impl<'a> Reader<'a> {
    // A whole number of 32 bits, or that its bytes are not all there.
    fn number(self) -> Result<u32, WkbRefusal>
        ensures { result ≡ value_of (field self.entry.bytes.now self.entry.order 4 self.entry.at) }
    {
        if self.bytes.len() - self.at < 4 {
            return Err(WkbRefusal::Ends(self.at));
        }
        Ok(u32_at(self.bytes, self.order, self.at))
    }

    // Past n points, or the place of the first double that is not all there: a count that no bytes stand behind costs nothing.
    fn past_points(self, n: u32) -> Result<usize, WkbRefusal>
        ensures { result ≡ end_of (points self.entry.bytes.now self.entry.order n self.entry.at) }
    {
        let n = n as usize;
        let there = (self.bytes.len() - self.at) / 8;
        if there < 2 * n {
            return Err(WkbRefusal::Ends(self.at + 8 * there));
        }
        Ok(self.at + 16 * n)
    }

    // Past n rings.
    fn past_rings(mut self, n: usize) -> Result<usize, WkbRefusal>
        ensures { result ≡ end_of (rings self.entry.bytes.now self.entry.order n self.entry.at) }
    {
        for _k in 0..n {
            let points = self.number()?;
            self.at += 4;
            self.at = self.past_points(points)?;
        }
        Ok(self.at)
    }

    // Past the type of a polygon.
    fn past_type(self) -> Result<usize, WkbRefusal>
        ensures { result ≡ end_of (type_at self.entry.bytes.now self.entry.order self.entry.at) }
    {
        let kind = self.number()?;
        if kind != POLYGON {
            return Err(WkbRefusal::Unknown(self.at));
        }
        Ok(self.at + 4)
    }

    // The ring count, which ends the header.
    fn count(self) -> Result<(ByteOrder, usize, usize), WkbRefusal>
        ensures { result ≡ header_told (count_at self.entry.bytes.now self.entry.order self.entry.at) }
    {
        let n = self.number()?;
        Ok((self.order, n as usize, self.at + 4))
    }
}

// The byte order, and the place behind it.
fn order_at(bytes: &[u8], at: usize) -> Result<(ByteOrder, usize), WkbRefusal>
    ensures { result ≡ order_told (order_at bytes.now at) }
{
    if bytes.len() <= at {
        return Err(WkbRefusal::Ends(at));
    }
    match bytes[at] {
        0 => Ok((ByteOrder::Big, at + 1)),
        1 => Ok((ByteOrder::Little, at + 1)),
        _ => Err(WkbRefusal::Unknown(at)),
    }
}

// The header of a polygon that starts at a place: its byte order and its ring count; and the place behind that.
fn header_at(bytes: &[u8], at: usize) -> Result<(ByteOrder, usize, usize), WkbRefusal>
    ensures { result ≡ header_told (header bytes.now at) }
{
    let (order, second) = order_at(bytes, at)?;
    let mut reader = Reader {
        bytes,
        order,
        at: second,
    };
    reader.at = reader.past_type()?;
    reader.count()
}

// The pass over all bytes: what polygon they are, of how many rings, or the first field at fault.
pub fn shape(bytes: &[u8]) -> Result<(ByteOrder, usize), WkbRefusal>
    ensures { result ≡ shape_told (whole bytes.now) }
{
    let (order, n, next) = header_at(bytes, 0)?;
    let reader = Reader {
        bytes,
        order,
        at: next,
    };
    let end = reader.past_rings(n)?;
    if end == bytes.len() {
        Ok((order, n))
    } else {
        Err(WkbRefusal::Ends(end))
    }
}
