// 01's sample sheet, the cases that are run and not proved: each line is a case and what the library says.
#![tactic(auto)]

mod limits;
mod trees;

use answers::Refusal;
use std::io;

fn say(rt: &impl Print, read: Result<(u64, usize), Refusal>) -> io::Result<()> {
    match read {
        Ok((x, _)) => println!(rt; "{x}"),
        Err(r) => println!(rt; "{r}"),
    }
}

// "Nine FF then 01", "then 7F": the tenth byte.
fn nine_and(rt: &impl Print, last: u8) -> io::Result<()> {
    let bytes = [255u8, 255, 255, 255, 255, 255, 255, 255, 255, last];
    say(rt, varint::read_uvarint(&bytes, 0, 10))
}

// "S, threshold 0, stripes: 4, 32, 66, 3": segments, stripes, entries in all, fullest stripe.
fn stripes_of_s(rt: &impl Print) -> io::Result<()> {
    let s = [0i32, 0, 10, 0, 10, 10, 0, 10, 0, 0];
    let mut stripes = [0u32; 64];
    let mut list = [0u32; 66];
    match stripes_build::build_stripes(&s, 5, 0, &mut stripes, &mut list) {
        Ok(Some(built)) => {
            let stats = built.stats;
            print!(rt; " {} {}", stats.segments, stats.stripes)?;
            println!(rt; " {} {}", stats.entries, stats.fullest)
        }
        Ok(None) => println!(rt; " none"),
        Err(r) => println!(rt; "{r}"),
    }
}

// "Ten bytes 80: ends early. Eleven: too long. Both 9."
fn eighties(rt: &impl Print) -> io::Result<()> {
    let ten = [128u8; 10];
    print!(rt; "ten bytes 80: ")?;
    say(rt, varint::read_uvarint(&ten, 0, 10))?;
    let eleven = [128u8; 11];
    print!(rt; "eleven bytes 80: ")?;
    say(rt, varint::read_uvarint(&eleven, 0, 11))
}

fn main(rt: HostRuntime) -> io::Result<()> {
    print!(rt; "S, threshold 0, stripes:")?;
    stripes_of_s(&rt)?;
    print!(rt; "nine FF then 01: ")?;
    nine_and(&rt, 1)?;
    print!(rt; "nine FF then 7F: ")?;
    nine_and(&rt, 127)?;
    trees::rows(&rt)?;
    trees::one_point(&rt)?;
    limits::most_points(&rt)?;
    limits::coordinates(&rt)?;
    eighties(&rt)
}
