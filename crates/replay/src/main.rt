// Replays a fixed list of questions, one a line of standard input, and prints one answer a line, which
// rt holds against the answers that the Rust gave. docs/REPLAY.md has the line form.
#![tactic(auto)]

mod casts;
mod grids;
mod numbers;
mod varints;

use lines::ask::answer_all;
use lines::fields::Fields;
use std::io;

fn main(rt: HostRuntime) -> io::Result<()> {
    answer_all(&rt, &mut rt.reader(), |word, fields| {
        answer(&rt, word, fields)
    })
}

// Each module knows some words, and prints the answer to a line with one of them.
fn answer(rt: &impl Print, word: &[u8], fields: Fields) -> io::Result<bool> {
    Ok(
        numbers::answer(rt, word, fields)?
            || varints::answer(rt, word, fields)?
            || casts::answer(rt, word, fields)?
            || grids::answer(rt, word, fields)?,
    )
}
