// Varints.
ghost use Rattle.std.specs.Prelude.{◌≡◌, length, take};
ghost use Rattle.varint.specs.Leb128.{encode};
ghost use Rattle.varint.specs.Uvarint.{read_uvarint, append_uvarint};
ghost use Rattle.probe.specs.Numbers.{read_numbers, append_numbers};

use varint::{append_uvarint, read_uvarint, uvarint_len};

#[unsafe(no_mangle)]
pub extern "C" fn probe_uvarint_len(x: u64) -> usize
    ensures { result ≡ length (encode x) }
{
    uvarint_len(x)
}

// The place past the number goes to place, and the number to value.
#[unsafe(no_mangle)]
pub extern "C" fn probe_read_uvarint(
    src: &[u8],
    at: usize,
    end: usize,
    place: &mut usize,
    value: &mut u64,
) -> u32
    ensures { read_numbers (read_uvarint 64 (take end src.now) at) ≡ (result, place.new, value.new) }
{
    match read_uvarint(src, at, end) {
        Ok((x, next)) => {
            *place = next;
            *value = x;
            0
        }
        Err(refusal) => {
            *place = refusal.place();
            *value = 0;
            refusal.number()
        }
    }
}

// The place past the bytes goes to place.
#[unsafe(no_mangle)]
pub extern "C" fn probe_append_uvarint(out: &mut [u8], at: usize, x: u64, place: &mut usize) -> u32
    ensures { append_numbers (append_uvarint out.old at x) ≡ (result, place.new, out.new) }
{
    match append_uvarint(out, at, x) {
        Ok(next) => {
            *place = next;
            0
        }
        Err(refusal) => {
            *place = refusal.place();
            refusal.number()
        }
    }
}
