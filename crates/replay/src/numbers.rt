// Questions on floats and whole numbers.
use floats::next_up;
use lines::fields::Fields;
use lines::print;
use root::sqrt;
use std::io;
use whole::{floor, round};

// The line's one field.
fn asked(mut fields: Fields) -> Option<f64> {
    let x = fields.float()?;
    fields.end()?;
    Some(x)
}

// Answers a line whose word is of this module; false where it is not, or where its fields are not good.
pub fn answer(rt: &impl Print, word: &[u8], fields: Fields) -> io::Result<bool> {
    let Some(x) = asked(fields) else {
        return Ok(false);
    };
    match word {
        b"next_up" => print::float(rt, next_up(x))?,
        b"floor" => print::whole(rt, floor(x))?,
        b"round" => print::whole(rt, round(x))?,
        b"sqrt" => print::float(rt, sqrt(x))?,
        _ => return Ok(false),
    }
    Ok(true)
}
