// Questions on varints.
ghost use Rattle.std.specs.Prelude.{◌≤◌, length, IfSome};

use lines::fields::Fields;
use lines::print;
use std::io;

// The number of a line that has no other field.
fn number(mut fields: Fields) -> Option<u64> {
    let x = fields.number()?;
    fields.end()?;
    Some(x)
}

// The bytes of a line, into the room, and its two numbers.
fn asked(mut fields: Fields, room: &mut [u8]) -> Option<(usize, usize, u64)>
    ensures { IfSome result (λ r. r.0 ≤ length room.old) }
{
    let n = fields.bytes(room)?;
    let at = fields.count()?;
    let last = fields.number()?;
    fields.end()?;
    Some((n, at, last))
}

fn read(rt: &impl Print, src: &[u8], at: usize, end: u64) -> io::Result<()> {
    match varint::read_uvarint(src, at, end as usize) {
        Ok((x, next)) => print!(rt; "{x:016x} {next:016x}"),
        Err(r) => print::refused(rt, r),
    }
}

fn append(rt: &impl Print, room: &mut [u8], at: usize, x: u64) -> io::Result<()> {
    match varint::append_uvarint(room, at, x) {
        Ok(next) => print!(rt; "{next:016x}")?,
        Err(r) => print::refused(rt, r)?,
    }
    print::space(rt)?;
    print::bytes(rt, room)
}

fn length(rt: &impl Print, fields: Fields) -> io::Result<bool> {
    let Some(x) = number(fields) else {
        return Ok(false);
    };
    print::number(rt, varint::uvarint_len(x) as u64)?;
    Ok(true)
}

// Answers a line whose word is of this module; false where it is not, or where its fields are not good.
pub fn answer(rt: &impl Print, word: &[u8], fields: Fields) -> io::Result<bool> {
    let mut room = [0u8; 256];
    match (word, asked(fields, &mut room)) {
        (b"uvarint_len", _) => return length(rt, fields),
        (b"read_uvarint", Some((n, at, end))) => read(rt, &room[..n], at, end)?,
        (b"append_uvarint", Some((n, at, x))) => append(rt, &mut room[..n], at, x)?,
        _ => return Ok(false),
    }
    Ok(true)
}
