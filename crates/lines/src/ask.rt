// The questions, one after the other, and what answers them.
ghost use Rattle.std.specs.Prelude.{◌≡◌, length};

use crate::fields::Fields;
use crate::print;
use crate::read::read_full;
use std::io;
use std::io::Read;

// Room for the whole input, an array since there is no heap. The `ensures` gives the length, which lending the array as a slice needs.
fn input() -> [u8; 1048576]
    ensures { 1048576 ≡ length result }
{
    [0; 1048576]
}

// Asks `answer` of each line of the input. It is given the line's word and its fields, and prints the answer; where it
// says false, it has printed nothing, and the line is no question. For the programs above, whose `answer` may be called with any line.
pub fn answer_all<R: Read, F: Fn(&[u8], Fields) -> io::Result<bool>>(
    rt: &impl Print,
    from: &mut R,
    answer: F,
) -> io::Result<()>
    requires { F.IsAlwaysCallable answer }
{
    let mut text = input();
    let n = read_full(from, &mut text)?;
    for line in text[..n].split_inclusive(|b| *b == b'\n') {
        let (word, fields) = Fields::of(line.strip_suffix(b"\n").unwrap_or(line));
        if answer(word, fields)? {
            print::end_line(rt)?;
        } else {
            print::unknown(rt)?;
        }
    }
    Ok(())
}
