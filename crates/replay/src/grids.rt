// Questions on rings and whole places.
use answers::Answer;
use lines::fields::Fields;
use lines::print::said;
use std::io;

// What the test says of a line's ring and place; None where its fields are not good.
fn asked(mut fields: Fields) -> Option<Answer> {
    let mut coords = [0i32; 64];
    let n = fields.ring(&mut coords)?;
    let points = fields.count()?;
    let x = fields.whole()?;
    let y = fields.whole()?;
    let edge = fields.yes()?;
    fields.end()?;
    Some(grid::grid_ring(&coords[..n], points, x, y, edge))
}

fn test(rt: &impl Print, fields: Fields) -> io::Result<bool> {
    let Some(answer) = asked(fields) else {
        return Ok(false);
    };
    said(rt, answer)?;
    Ok(true)
}

// Answers a line whose word is of this module; false where it is not, or where its fields are not good.
pub fn answer(rt: &impl Print, word: &[u8], fields: Fields) -> io::Result<bool> {
    match word {
        b"grid_ring" => test(rt, fields),
        _ => Ok(false),
    }
}
