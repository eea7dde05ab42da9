// Questions on boxes and segments.
use boxes::{I32Point, Point, Rect, Segment, choose_quad};
use lines::fields::Fields;
use lines::print;
use rays::{RaycastResult, raycast};
use std::io;

// Two floats.
fn point(fields: &mut Fields) -> Option<Point> {
    let x = fields.float()?;
    let y = fields.float()?;
    Some(Point { x, y })
}

// Four floats.
fn rect(fields: &mut Fields) -> Option<Rect> {
    let min = point(fields)?;
    let max = point(fields)?;
    Some(Rect { min, max })
}

// A whole number that is a coordinate.
fn coordinate(fields: &mut Fields) -> Option<i32> {
    i32::try_from(fields.whole()?).ok()
}

// Two coordinates.
fn end_point(fields: &mut Fields) -> Option<I32Point> {
    let x = coordinate(fields)?;
    let y = coordinate(fields)?;
    Some(I32Point { x, y })
}

// A segment and a point.
fn cast_asked(mut fields: Fields) -> Option<(Segment, Point)> {
    let a = end_point(&mut fields)?;
    let b = end_point(&mut fields)?;
    let p = point(&mut fields)?;
    fields.end()?;
    Some((Segment { a, b }, p))
}

fn cast(rt: &impl Print, fields: Fields) -> io::Result<bool> {
    let Some((segment, p)) = cast_asked(fields) else {
        return Ok(false);
    };
    match raycast(segment, p) {
        RaycastResult::Neither => print::text(rt, b"neither")?,
        RaycastResult::Inside => print::text(rt, b"inside")?,
        RaycastResult::On => print::text(rt, b"on")?,
    }
    Ok(true)
}

// Two boxes.
fn choice_asked(mut fields: Fields) -> Option<(Rect, Rect)> {
    let bounds = rect(&mut fields)?;
    let segment = rect(&mut fields)?;
    fields.end()?;
    Some((bounds, segment))
}

fn choose(rt: &impl Print, fields: Fields) -> io::Result<bool> {
    let Some((bounds, segment)) = choice_asked(fields) else {
        return Ok(false);
    };
    match choose_quad(bounds, segment) {
        Some(q) => print::number(rt, q as u64)?,
        None => print::text(rt, b"stays")?,
    }
    Ok(true)
}

// Answers a line whose word is of this module; false where it is not, or where its fields are not good.
pub fn answer(rt: &impl Print, word: &[u8], fields: Fields) -> io::Result<bool> {
    match word {
        b"raycast" => cast(rt, fields),
        b"choose_quad" => choose(rt, fields),
        _ => Ok(false),
    }
}
