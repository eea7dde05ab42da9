// Points, boxes and segments. Every promise is an equality with a definition of specs/, so that each
// call has one answer.
#![tactic(auto)]

ghost use Rattle.std.specs.Prelude.{◌≡◌};
ghost use Rattle.boxes.specs.Boxes.{holds, meets, nw_of, sw_of, se_of, ne_of, south_of, east_of, north_of, west_of, side_at};
ghost use Rattle.boxes.specs.Segments.{point_of, rect_of};
ghost use Rattle.boxes.specs.Quads.{box, chosen, quad_bounds};

use floats::{greater, lesser};

#[derive(Clone, Copy, Debug, PartialEq)]
pub struct Point {
    pub x: f64,
    pub y: f64,
}

// A stored point. It stays a type of its own beside `Point`, as `Segment` beside `Side`: 01 asks that a box hold two Points of f64,
// and a type over the kind of coordinate would put that word into every promise that names a point.
#[derive(Clone, Copy, Debug, PartialEq, Eq)]
pub struct I32Point {
    pub x: i32,
    pub y: i32,
}

// A box: its lowest and its highest corner.
#[derive(Clone, Copy, Debug, PartialEq)]
pub struct Rect {
    pub min: Point,
    pub max: Point,
}

// A side of a box, from corner to corner.
#[derive(Clone, Copy, Debug, PartialEq)]
pub struct Side {
    pub a: Point,
    pub b: Point,
}

// A stored segment, from point to point.
#[derive(Clone, Copy, Debug, PartialEq, Eq)]
pub struct Segment {
    pub a: I32Point,
    pub b: I32Point,
}

impl Rect {
    pub fn contains_point(self, p: Point) -> bool
        ensures { result ≡ holds self p }
    {
        (self.min.x <= p.x) & (p.x <= self.max.x) & (self.min.y <= p.y) & (p.y <= self.max.y)
    }

    pub fn intersects_rect(self, other: Rect) -> bool
        ensures { result ≡ meets self other }
    {
        !((self.min.y > other.max.y) | (self.max.y < other.min.y))
            & !((self.min.x > other.max.x) | (self.max.x < other.min.x))
    }

    pub fn nw(self) -> Point
        ensures { result ≡ nw_of self }
    {
        Point {
            x: self.min.x,
            y: self.max.y,
        }
    }

    pub fn sw(self) -> Point
        ensures { result ≡ sw_of self }
    {
        Point {
            x: self.min.x,
            y: self.min.y,
        }
    }

    pub fn se(self) -> Point
        ensures { result ≡ se_of self }
    {
        Point {
            x: self.max.x,
            y: self.min.y,
        }
    }

    pub fn ne(self) -> Point
        ensures { result ≡ ne_of self }
    {
        Point {
            x: self.max.x,
            y: self.max.y,
        }
    }

    pub fn south(self) -> Side
        ensures { result ≡ south_of self }
    {
        Side {
            a: self.sw(),
            b: self.se(),
        }
    }

    pub fn east(self) -> Side
        ensures { result ≡ east_of self }
    {
        Side {
            a: self.se(),
            b: self.ne(),
        }
    }

    pub fn north(self) -> Side
        ensures { result ≡ north_of self }
    {
        Side {
            a: self.ne(),
            b: self.nw(),
        }
    }

    pub fn west(self) -> Side
        ensures { result ≡ west_of self }
    {
        Side {
            a: self.nw(),
            b: self.sw(),
        }
    }

    pub fn segment_at(self, index: i64) -> Side
        ensures { result ≡ side_at self index }
    {
        match index {
            1 => self.east(),
            2 => self.north(),
            3 => self.west(),
            _ => self.south(),
        }
    }
}

impl I32Point {
    pub fn point(self) -> Point
        ensures { result ≡ point_of self }
    {
        Point {
            x: f64::from(self.x),
            y: f64::from(self.y),
        }
    }
}

impl Segment {
    pub fn rect(self) -> Rect
        ensures { result ≡ rect_of self }
    {
        let a = self.a.point();
        let b = self.b.point();
        Rect {
            min: Point {
                x: lesser(a.x, b.x),
                y: lesser(a.y, b.y),
            },
            max: Point {
                x: greater(a.x, b.x),
                y: greater(a.y, b.y),
            },
        }
    }
}

// The quadrant of `bounds` that takes a segment whose box is `rect`. What is not below the middle is
// east of it, or north.
// The same test is made on x and on y, written out twice: a function for one of them, with an Option to be told by `?`, is
// no shorter, and would hide which side of the middle is which.
pub fn choose_quad(bounds: Rect, rect: Rect) -> Option<usize>
    ensures { result ≡ chosen bounds rect }
{
    let mid_x = (bounds.min.x + bounds.max.x) / 2.0;
    let mid_y = (bounds.min.y + bounds.max.y) / 2.0;
    let west = rect.max.x < mid_x;
    let east = !(rect.min.x < mid_x);
    let south = rect.max.y < mid_y;
    let north = !(rect.min.y < mid_y);
    if west {
        if south {
            return Some(2);
        }
        if north {
            return Some(0);
        }
        return None;
    }
    if east {
        if south {
            return Some(3);
        }
        if north {
            return Some(1);
        }
        return None;
    }
    None
}

fn spanned(west: f64, south: f64, east: f64, north: f64) -> Rect
    ensures { result ≡ box west south east north }
{
    Rect {
        min: Point { x: west, y: south },
        max: Point { x: east, y: north },
    }
}

// The box of quadrant q of `bounds`. Any other q gives `bounds` back.
pub fn quad_bounds(bounds: Rect, q: usize) -> Rect
    ensures { result ≡ quad_bounds bounds q }
{
    let x = (bounds.min.x + bounds.max.x) / 2.0;
    let y = (bounds.min.y + bounds.max.y) / 2.0;
    match q {
        0 => spanned(bounds.min.x, y, x, bounds.max.y),
        1 => spanned(x, y, bounds.max.x, bounds.max.y),
        2 => spanned(bounds.min.x, bounds.min.y, x, y),
        3 => spanned(x, bounds.min.y, bounds.max.x, y),
        _ => bounds,
    }
}
