// The answers, as docs/REPLAY.md has them. An error is that of the first write that failed; nothing is printed after it.
use answers::{Answer, Refusal};
use std::io;

pub fn text(rt: &impl Print, t: &[u8]) -> io::Result<()> {
    rt.write_all(t)
}

pub fn space(rt: &impl Print) -> io::Result<()> {
    text(rt, b" ")
}

pub fn end_line(rt: &impl Print) -> io::Result<()> {
    text(rt, b"\n")
}

pub fn unknown(rt: &impl Print) -> io::Result<()> {
    text(rt, b"?\n")
}

pub fn number(rt: &impl Print, x: u64) -> io::Result<()> {
    print!(rt; "{x:016x}")
}

// A whole number by its two's complement.
pub fn whole(rt: &impl Print, x: i64) -> io::Result<()> {
    number(rt, x.cast_unsigned())
}

pub fn float(rt: &impl Print, x: f64) -> io::Result<()> {
    if x.is_nan() {
        return text(rt, b"nan");
    }
    number(rt, x.to_bits())
}

pub fn bytes(rt: &impl Print, b: &[u8]) -> io::Result<()> {
    if b.is_empty() {
        text(rt, b"-")?;
    }
    for x in b {
        print!(rt; "{x:02x}")?;
    }
    Ok(())
}

// Not the form of `Refusal`'s Display, which is the sample sheet's.
pub fn refused(rt: &impl Print, r: Refusal) -> io::Result<()> {
    print!(rt; "refused {:016x} {:016x}", r.number(), r.place())
}

pub fn said(rt: &impl Print, answer: Answer) -> io::Result<()> {
    match answer {
        Ok(true) => text(rt, b"yes"),
        Ok(false) => text(rt, b"no"),
        Err(r) => refused(rt, r),
    }
}
