// Replays questions on lists, stripes, trees and whole outlines, one a line of standard input, and prints
// one answer a line, which rt holds against the answers that the Rust gave. docs/REPLAY.md has the line form.
#![tactic(auto)]

mod indexes;
mod lists;
mod outlines;

use lines::ask::answer_all;
use lines::fields::Fields;
use std::io;

fn main(rt: HostRuntime) -> io::Result<()> {
    answer_all(&rt, &mut rt.reader(), |word, fields| {
        answer(&rt, word, fields)
    })
}

// Each module knows some words, and prints the answer to a line with one of them.
fn answer(rt: &impl Print, word: &[u8], fields: Fields) -> io::Result<bool> {
    Ok(
        lists::answer(rt, word, fields)?
            || indexes::answer(rt, word, fields)?
            || outlines::answer(rt, word, fields)?,
    )
}
