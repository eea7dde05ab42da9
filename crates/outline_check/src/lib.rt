// An outline: rings lent as slices, the exterior first, and how its coordinates are scaled and asked. The rules that an outline keeps.
#![tactic(auto)]

ghost use Rattle.std.specs.Prelude.{◌≡◌, ◌≤◌, length};
ghost use Rattle.answers.specs.declared.Refusal.TheVariants.{TooFew, TooMany, NotClosed};
ghost use Rattle.outline_check.specs.Outline.{rings, start_of, outline_of};
ghost use Rattle.outline_check.specs.Rules.{for_each, enough, not_over, shut, shape_with, shape_checked, outline_with, outline_checked};
ghost use Rattle.outline_check.specs.Inner.Counted.{Counted, counts_checked};

use answers::Refusal;
use floats::is_finite;
use rings::is_closed;

// How a scaled query is asked: as floats, or rounded to whole numbers.
#[derive(Clone, Copy, Debug, PartialEq, Eq)]
pub enum RaycastMode {
    Float,
    Integer,
}

// The rings' points are lent as slices of numbers, so the type holds what is left of an outline, and the limits.
#[derive(Clone, Copy)]
pub struct Outline {
    pub scale: f64,
    pub mode: RaycastMode,
}

impl Outline {
    pub const MIN_RINGS: usize = 1;

    pub const MAX_RINGS: usize = 64;

    pub const MIN_POINTS: u32 = 2;

    pub const MAX_POINTS: u32 = 4097;

    // Float mode, the source's default.
    pub fn new(scale: f64) -> Outline
        ensures { result ≡ outline_of scale RaycastMode.Float }
    {
        Outline {
            scale,
            mode: RaycastMode::Float,
        }
    }

    pub fn new_with_mode(scale: f64, mode: RaycastMode) -> Outline
        ensures { result ≡ outline_of scale mode }
    {
        Outline { scale, mode }
    }

    pub fn scale(self) -> f64
        ensures { result ≡ self.scale }
    {
        self.scale
    }

    pub fn mode(self) -> RaycastMode
        ensures { result ≡ self.mode }
    {
        self.mode
    }
}

// How many points all rings have, of which there are few enough that the sum fits.
fn points_of(sizes: &[u32]) -> usize
    requires { length sizes.now ≤ 64 }
    ensures { result ≡ start_of sizes.now (rings sizes.now) }
{
    sizes.iter().map(|points| *points as usize).sum()
}

// The rings of an outline whose counts passed rules 1 to 3: the point count of each, and all their numbers, one ring after the other.
#[derive(Clone, Copy)]
pub struct Rings<'a> {
    pub sizes: &'a [u32],
    pub coords: &'a [i32],
    pub ghost counted: { Counted sizes.now coords.now },
}

impl<'a> Rings<'a> {
    // Rule 4.
    fn check_closed(self) -> Result<(), Refusal>
        ensures { result ≡ for_each (shut self.entry.sizes.now self.entry.coords.now) NotClosed (rings self.entry.sizes.now) (Ok tt) }
    {
        let mut start: usize = 0;
        for (k, size) in self.sizes.iter().enumerate() {
            let points = *size as usize;
            let end = start + 2 * points;
            if !is_closed(&self.coords[start..end], points) {
                return Err(Refusal::NotClosed(k));
            }
            start = end;
        }
        Ok(())
    }
}

// Rules 1 and 2: the count of rings, and the count of points of each.
fn check_counts(sizes: &[u32]) -> Result<(), Refusal>
    ensures { result ≡ counts_checked sizes.now }
{
    if sizes.len() < Outline::MIN_RINGS {
        return Err(Refusal::TooFew(0));
    }
    if let Some(k) = sizes
        .iter()
        .position(|points| *points < Outline::MIN_POINTS)
    {
        return Err(Refusal::TooFew(k));
    }
    if Outline::MAX_RINGS < sizes.len() {
        return Err(Refusal::TooMany(Outline::MAX_RINGS));
    }
    if let Some(k) = sizes
        .iter()
        .position(|points| Outline::MAX_POINTS < *points)
    {
        return Err(Refusal::TooMany(k));
    }
    Ok(())
}

// Rules 1 to 4 for a call that is lent more beside the coordinates: rule 3 asks too that this fits, which the caller has found out.
fn check_shape_with(fits: bool, sizes: &[u32], coords: &[i32]) -> Result<(), Refusal>
    ensures { result ≡ shape_with fits sizes.now coords.now }
{
    check_counts(sizes)?;
    if !(fits & (2 * points_of(sizes) == coords.len())) {
        return Err(Refusal::SizesDiffer);
    }
    let rings = Rings { sizes, coords };
    rings.check_closed()
}

// Rules 1 to 5 for such a call.
#[tactic(auto, unfolding(crate::specs::Rules::outline_with, crate::specs::Rules::scale_checked))]
pub fn check_outline_with(
    fits: bool,
    outline: Outline,
    sizes: &[u32],
    coords: &[i32],
) -> Result<(), Refusal>
    ensures { result ≡ outline_with fits outline.scale sizes.now coords.now }
{
    check_shape_with(fits, sizes, coords)?;
    let scale = outline.scale;
    if !(is_finite(scale) & (0.0 < scale)) {
        return Err(Refusal::BadScale);
    }
    Ok(())
}

// Rules 1 to 4.
pub fn check_shape(sizes: &[u32], coords: &[i32]) -> Result<(), Refusal>
    ensures { result ≡ shape_checked sizes.now coords.now }
{
    check_shape_with(true, sizes, coords)
}

// Rules 1 to 5.
pub fn check_outline(outline: Outline, sizes: &[u32], coords: &[i32]) -> Result<(), Refusal>
    ensures { result ≡ outline_checked outline.scale sizes.now coords.now }
{
    check_outline_with(true, outline, sizes, coords)
}
