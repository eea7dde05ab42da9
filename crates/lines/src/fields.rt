// The fields of a line.
ghost use Rattle.std.specs.Prelude.{◌≤◌, length, IfSome};

use wkb_fields::float_of;

// The value of a hexadecimal digit. Rust's `to_digit` and `from_str_radix` take upper case too, and the latter a sign.
fn digit(b: u8) -> Option<u8>
    ensures { IfSome result (λ d. d ≤ 15) }
{
    match b {
        b'0'..=b'9' => Some(b - b'0'),
        b'a'..=b'f' => Some(b - b'a' + 10),
        _ => None,
    }
}

// The byte whose two digits a text begins with, and the text behind them.
fn byte(text: &[u8]) -> Option<(u8, &[u8])> {
    let [high, low, rest @ ..] = text else {
        return None;
    };
    Some((digit(*high)? * 16 + digit(*low)?, rest))
}

// What is left of a line, behind the fields that were read: each field stands after a space.
#[derive(Clone, Copy)]
pub struct Fields<'a> {
    rest: &'a [u8],
}

impl<'a> Fields<'a> {
    // A line's word, and its fields.
    pub fn of(line: &'a [u8]) -> (&'a [u8], Fields<'a>) {
        let end = line.iter().position(|b| *b == b' ').unwrap_or(line.len());
        let (word, rest) = line.split_at(end);
        (word, Fields { rest })
    }

    // The number of up to 16 digits that is next.
    pub fn number(&mut self) -> Option<u64> {
        let text = self.rest.strip_prefix(b" ")?;
        let end = text
            .iter()
            .position(|b| digit(*b).is_none())
            .unwrap_or(text.len());
        let (digits, rest) = text.split_at(end.min(16));
        self.rest = rest;
        if digits.is_empty() {
            return None;
        }
        Some(
            digits.iter().fold(0, |x: u64, b| {
                (x << 4) | u64::from(digit(*b).unwrap_or(0))
            }),
        )
    }

    // As a place or a count.
    pub fn count(&mut self) -> Option<usize> {
        Some(self.number()? as usize)
    }

    // A whole number by its two's complement.
    pub fn whole(&mut self) -> Option<i64> {
        Some(self.number()?.cast_signed())
    }

    // A float by its pattern.
    pub fn float(&mut self) -> Option<f64> {
        Some(float_of(self.number()?))
    }

    // 0 for no, 1 for yes.
    pub fn yes(&mut self) -> Option<bool> {
        match self.number()? {
            0 => Some(false),
            1 => Some(true),
            _ => None,
        }
    }

    // The bytes, two digits each, that are next, or `-` for none: into the room, and how many.
    pub fn bytes(&mut self, room: &mut [u8]) -> Option<usize>
        ensures { IfSome result (λ n. n ≤ length room.old) }
    {
        let mut text = self.rest.strip_prefix(b" ")?;
        if let Some(rest) = text.strip_prefix(b"-") {
            self.rest = rest;
            return Some(0);
        }
        let mut n: usize = 0;
        for (i, slot) in room.iter_mut().enumerate() {
            let Some((b, rest)) = byte(text) else {
                break;
            };
            *slot = b;
            text = rest;
            n = i + 1;
        }
        self.rest = text;
        if n == 0 { None } else { Some(n) }
    }

    // The coordinates, eight digits each, that are next: into the room, and how many. Bytes that make no whole
    // coordinate, or more than there is room for, are none.
    pub fn ring(&mut self, out: &mut [i32]) -> Option<usize>
        ensures { IfSome result (λ n. n ≤ length out.old) }
    {
        let mut room = [0u8; 256];
        let n = self.bytes(&mut room)?;
        if (n % 4 != 0) | (out.len() < n / 4) {
            return None;
        }
        for (z, four) in out.iter_mut().zip(room[..n].chunks_exact(4)) {
            *z = i32::from_be_bytes([four[0], four[1], four[2], four[3]]);
        }
        Some(n / 4)
    }

    // That the line ends here.
    pub fn end(self) -> Option<()> {
        self.rest.is_empty().then_some(())
    }
}
