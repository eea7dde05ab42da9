// What a call says when it says no: document 01's numbered refusals, each with its place. A call that can refuse
// answers a `Result` with one; an inside question answers an `Answer`. Every promise is an equality with a
// definition of specs/, so that each call has one answer.
#![tactic(auto)]

ghost use Rattle.std.specs.Prelude.{◌≡◌};
ghost use Rattle.answers.specs.Refusals.{number_of, place_of, zeroes_rooms};

use std::error::Error;
use std::fmt;

// A refusal whose place the table gives as 0 always carries none.
#[derive(Clone, Copy, Debug, PartialEq, Eq)]
pub enum Refusal {
    TooFew(usize),
    TooMany(usize),
    SizesDiffer,
    NotClosed(usize),
    BadScale,
    BadHeight,
    NoRoom,
    Damaged(usize),
    Loose(usize),
}

impl Refusal {
    // 01's number of the refusal.
    pub fn number(self) -> u32
        ensures { result ≡ number_of self }
    {
        match self {
            Refusal::TooFew(_) => 1,
            Refusal::TooMany(_) => 2,
            Refusal::SizesDiffer => 3,
            Refusal::NotClosed(_) => 4,
            Refusal::BadScale => 5,
            Refusal::BadHeight => 7,
            Refusal::NoRoom => 8,
            Refusal::Damaged(_) => 9,
            Refusal::Loose(_) => 15,
        }
    }

    // 01's place of the refusal: a ring's number for 1 and 4, a ring's number or 64 for 2, for 9 a
    // byte of a tree or a position in a list of stripes, its length or 0, for 15 a varint's first byte,
    // and 0 for the others.
    pub fn place(self) -> usize
        ensures { result ≡ place_of self }
    {
        match self {
            Refusal::TooFew(ring) | Refusal::TooMany(ring) => ring,
            Refusal::NotClosed(ring) => ring,
            Refusal::Damaged(at) | Refusal::Loose(at) => at,
            Refusal::SizesDiffer | Refusal::BadScale | Refusal::BadHeight | Refusal::NoRoom => 0,
        }
    }

    // Whether it fills all lent room with zeros; the others leave lent room as it was.
    pub fn zeroes_rooms(self) -> bool
        ensures { result ≡ zeroes_rooms self }
    {
        match self {
            Refusal::Damaged(_) => true,
            Refusal::NoRoom | Refusal::Loose(_) => true,
            _ => false,
        }
    }
}

// What an inside question answers: yes, no, or a refusal.
pub type Answer = Result<bool, Refusal>;

// As the sample sheet prints it.
impl fmt::Display for Refusal {
    fn fmt<W: fmt::Write>(&self, f: &mut fmt::Formatter<W>) -> fmt::Result {
        write!(f, "refusal {}, place {}", self.number(), self.place())
    }
}

impl Error for Refusal {}
