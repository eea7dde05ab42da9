// The fields of well-known binary (OGC 06-103r4, clause 8): whole numbers of 32 bits and doubles, out of bytes of either order.
#![tactic(auto)]

ghost use Rattle.std.specs.Prelude.{◌≡◌, ◌+◌, ◌≤◌, length, take, drop};
ghost use Rattle.std.specs.Float.{binary64};
ghost use Rattle.std.specs.Float.Ieee.{of_bits};
ghost use Rattle.wkb_fields.specs.Fields.{field_of};

// XDR, whose first byte is the most significant one, and NDR, whose first is the least.
#[derive(Clone, Copy, Debug, PartialEq, Eq)]
pub enum ByteOrder {
    Big,
    Little,
}

// The N bytes from a place on.
fn bytes_at<const N: usize>(bytes: &[u8], at: usize) -> [u8; N]
    requires { at + N ≤ length bytes.now }
    ensures { result ≡ take N (drop at bytes.now) }
{
    let mut field = [0u8; N];
    field.copy_from_slice(&bytes[at..at + N]);
    field
}

// A whole number of 32 bits. For readers that have seen that its bytes are there.
pub fn u32_at(bytes: &[u8], order: ByteOrder, at: usize) -> u32
    requires { at + 4 ≤ length bytes.now }
    ensures { result ≡ field_of order 4 bytes.now at }
{
    match order {
        ByteOrder::Big => u32::from_be_bytes(bytes_at(bytes, at)),
        ByteOrder::Little => u32::from_le_bytes(bytes_at(bytes, at)),
    }
}

// The pattern of a double. It is not one function with the above: std has no trait of `from_be_bytes`, and one of our own, with an
// impl and a law for each of the two widths, is longer than these five lines.
fn u64_at(bytes: &[u8], order: ByteOrder, at: usize) -> u64
    requires { at + 8 ≤ length bytes.now }
    ensures { result ≡ field_of order 8 bytes.now at }
{
    match order {
        ByteOrder::Big => u64::from_be_bytes(bytes_at(bytes, at)),
        ByteOrder::Little => u64::from_le_bytes(bytes_at(bytes, at)),
    }
}

// The float of a pattern; every NaN's pattern gives a NaN. `f64::from_bits` asks that its pattern is no NaN's.
pub fn float_of(bits: u64) -> f64
    ensures { result ≡ of_bits binary64 bits }
{
    if 0x7ff0_0000_0000_0000 < bits % 0x8000_0000_0000_0000 {
        return f64::NAN;
    }
    f64::from_bits(bits)
}

// A double. For readers that have seen that its bytes are there.
pub fn double_at(bytes: &[u8], order: ByteOrder, at: usize) -> f64
    requires { at + 8 ≤ length bytes.now }
    ensures { result ≡ of_bits binary64 (field_of order 8 bytes.now at) }
{
    float_of(u64_at(bytes, order, at))
}
