// "4,097 points pass, 4,098 give 2. Integer mode takes any i32, 1,073,741,824 too (CR 14)."
use outline_check::{Outline, RaycastMode, check_outline};
use std::io;

fn checked(rt: &impl Print, outline: Outline, sizes: &[u32], coords: &[i32]) -> io::Result<()> {
    match check_outline(outline, sizes, coords) {
        Ok(()) => println!(rt; "passes"),
        Err(r) => println!(rt; "{r}"),
    }
}

// A ring of that many points, all at (0, 0).
fn points(rt: &impl Print, coords: &[i32], n: u32) -> io::Result<()> {
    print!(rt; "{n} points: ")?;
    checked(rt, Outline::new(1.0), &[n], coords)
}

pub fn most_points(rt: &impl Print) -> io::Result<()> {
    points(rt, &[0i32; 8194], 4097)?;
    points(rt, &[0i32; 8196], 4098)
}

// A triangle with one corner at (x, 0).
fn reaching(rt: &impl Print, mode: RaycastMode, x: i32) -> io::Result<()> {
    let coords = [0i32, 0, x, 0, 0, 10, 0, 0];
    let sizes = [4u32];
    checked(rt, Outline::new_with_mode(1.0, mode), &sizes, &coords)
}

pub fn coordinates(rt: &impl Print) -> io::Result<()> {
    print!(rt; "coordinate 1073741824 in Integer mode: ")?;
    reaching(rt, RaycastMode::Integer, 1073741824)?;
    print!(rt; "coordinate 2147483647 in Integer mode: ")?;
    reaching(rt, RaycastMode::Integer, 2147483647)?;
    print!(rt; "coordinate -2147483648 in Integer mode: ")?;
    reaching(rt, RaycastMode::Integer, -2147483648)?;
    print!(rt; "coordinate 1073741824 in Float mode: ")?;
    reaching(rt, RaycastMode::Float, 1073741824)
}
