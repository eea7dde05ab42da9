// Unsigned LEB128 numbers (DWARF 5, section 7.6), low seven bits first: `append_uvarint` and
// `read_uvarint`, and what the packing of a tree needs of them. Each promise is an equality, so that
// it leaves room for one answer and one content only.
#![tactic(auto)]

ghost use Rattle.std.specs.Prelude.{◌≡◌, ◌+◌, ◌≤◌, length, take};
ghost use Rattle.room.specs.Room.{write};
ghost use Rattle.room.specs.Inner.Pour.{put_of};
ghost use Rattle.varint.specs.Bytes.{Bytes};
ghost use Rattle.varint.specs.Leb128.{encode};
ghost use Rattle.varint.specs.Uvarint.{read_uvarint, append_uvarint};

use answers::Refusal;
use room::fill_from;

// A number of 64 bits has at most ten bytes: so far behind its first one the last of them stands.
const LAST: usize = 9;

// Reads the number that starts at `at` in the part of `src` that ends before `end`. An `end` past
// the slice counts as the slice's end, and an `at` from the part's end on finds no byte. A number
// that ends, but is longer than it has to be or above 64 bits, is loose.
pub fn read_uvarint(src: &[u8], at: usize, end: usize) -> Result<(u64, usize), Refusal>
    ensures { result ≡ read_uvarint 64 (take end src.now) at }
{
    let stop = end.min(src.len());
    let mut x: u64 = 0;
    let mut weight: u64 = 1;
    for p in at..stop {
        let b = u64::from(src[p]);
        if p - at == LAST {
            // The tenth byte: of its seven bits only the lowest has a place below 2 to the power 64.
            if 128 <= b {
                return Err(Refusal::Damaged(at));
            }
            if b != 1 {
                return Err(Refusal::Loose(at));
            }
            return Ok((x + weight, p + 1));
        }
        if b < 128 {
            if b == 0 && at < p {
                return Err(Refusal::Loose(at));
            }
            return Ok((x + b * weight, p + 1));
        }
        x += (b - 128) * weight;
        weight *= 128;
    }
    Err(Refusal::Damaged(at))
}

// How many bytes a number takes, seven of its bits a byte. The lowest bit counts as set, which gives
// 0 its one byte and makes no number longer. Nine sixty-fourths stand for a seventh: up to 64 bits
// they come to as many bytes, and the division is by a power of two.
pub fn uvarint_len(x: u64) -> usize
    ensures { result ≡ length (encode x) }
{
    let bits = 64 - (x | 1).leading_zeros();
    ((bits * 9 + 64) / 64) as usize
}

// Writes a number's bytes at a place where they fit, and answers the place past them. For the crates
// above, which have worked out the room before they write. The loop stays a `while`: it divides a number until it is small,
// and its measure is that number and no count.
pub fn write_uvarint(out: &mut [u8], at: usize, x: u64) -> usize
    requires { at + length (encode x) ≤ length out.old }
    ensures { (result ≡ at + length (encode x)) × (out.new ≡ write out.old at (encode x)) }
{
    let mut p = at;
    let mut rest = x;
    while 128 <= rest {
        out[p] = (rest % 128 + 128) as u8;
        rest /= 128;
        p += 1;
    }
    out[p] = rest as u8;
    p + 1
}

// A number's bytes where they fit, and else the room as it was.
pub fn put_uvarint(out: &mut [u8], at: usize, x: u64) -> Option<usize>
    ensures { put_of (encode x) at out.old ≡ (result, out.new) }
{
    if out.len().saturating_sub(at) < uvarint_len(x) {
        return None;
    }
    Some(write_uvarint(out, at, x))
}

// Puts a number's bytes behind the first `at` bytes of the room, and zeros behind them.
pub fn append_uvarint(out: &mut [u8], at: usize, x: u64) -> Result<usize, Refusal>
    ensures { append_uvarint out.old at x ≡ (result, out.new) }
{
    let Some(next) = put_uvarint(out, at, x) else {
        out.fill(0);
        return Err(Refusal::NoRoom);
    };
    fill_from(out, next, 0);
    Ok(next)
}

// Whatever is lent as a slice of u8 is a list of bytes, which the laws of reading and writing take
// for granted. No program needs to call it: its promise is what those laws are cited with.
pub fn lent_bytes(src: &[u8])
    ensures { Bytes src.now }
{
    if 0 < src.len() {
        let first = src[0];
    }
}
