// The table of an outline's indexes has a row of ten numbers for each ring: here is which number is which, and a number of it.
#![tactic(auto)]

ghost use Rattle.std.specs.Prelude.{◌≡◌};
ghost use Rattle.outline_table.specs.Row.{number};

// A row is lent as a part of the table, so the type holds nothing but the places in a row.
#[derive(Clone, Copy)]
pub struct Row;

impl Row {
    pub const SEGMENTS: usize = 0;

    // 1 where an index was asked for and the ring is under the threshold.
    pub const UNDER: usize = 1;

    // 1 for stripes, 2 for a tree, 3 for both.
    pub const KINDS: usize = 2;

    pub const STRIPES_START: usize = 3;

    // How many stripes; each is two numbers.
    pub const STRIPES: usize = 4;

    pub const LIST_START: usize = 5;

    pub const ENTRIES: usize = 6;

    // Entries of the fullest stripe.
    pub const FULLEST: usize = 7;

    pub const BYTES_START: usize = 8;

    pub const BYTES: usize = 9;

    // How many numbers a row has.
    pub const NUMBERS: usize = 10;

    // Number i of ring k's row; one that is missing counts as 0.
    pub fn number(table: &[u64], k: usize, i: usize) -> usize
        ensures { result ≡ number table.now k i }
    {
        let at = k.saturating_mul(Row::NUMBERS).saturating_add(i);
        table.get(at).map_or(0, |x| *x as usize)
    }
}
