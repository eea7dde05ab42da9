// The questions, as they come in.
ghost use Rattle.std.specs.Prelude.{◌≤◌, ◌<◌, length, take, IfOk};
ghost use Rattle.std.specs.Io.KnownBytes.{Consumes, IsAtEnd};

use std::io;
use std::io::Read;

// Reads until the room is full or the input ends, and says how many bytes stand at the room's start. They are the next
// ones of the input, all of them where the room is not full.
pub fn read_full<R: Read>(from: &mut R, room: &mut [u8]) -> io::Result<usize>
    ensures in_bounds { IfOk result (λ n. n ≤ length room.new) }
    ensures bytes { IfOk result (λ n. Consumes (R.remaining from.old) (R.remaining from.new) (take n room.new)) }
    ensures end { IfOk result (λ n. n < length room.new → IsAtEnd (R.remaining from.new)) }
{
    let mut done: usize = 0;
    // no `for`: a read gives any count, and `read_to_end` wants a heap, `read_exact` the length
    while done < room.len() {
        let n = from.read(&mut room[done..])?;
        if n == 0 {
            break;
        }
        done += n;
    }
    Ok(done)
}
