// Why a call was refused. Each case is known by its number, which is its discriminant; docs/REFUSALS.md has the causes.
ghost use Rattle.std.specs.Prelude.{◌≡◌, Some};
ghost use Rattle.flash.specs.Numbers.{number_of};
ghost use Rattle.flash.specs.Words.{words_of};

use std::error::Error;
use std::fmt;

#[derive(Clone, Copy, Debug, PartialEq, Eq)]
pub enum Refusal {
    // from the input
    Path = 1,
    TooLong = 2,
    Shape = 3,
    Memory = 4,
    Buffer = 5,
    Kind = 6,
    Field = 7,
    Conflict = 8,
    Outside = 11,
    NotPages = 12,
    // from the state
    BelowMark = 13,
    OtherHeld = 14,
    NoPower = 20,
    Absent = 21,
    Exists = 22,
    WrongKind = 23,
    NotEmpty = 24,
    NoSpace = 25,
    Exhausted = 26,
    NoFull = 27,
    Unreadable = 28,
}

// The number of the refusal.
impl From<Refusal> for u8 {
    ghost from_gives = { λ refusal n. n ≡ number_of refusal };

    fn from(refusal: Refusal) -> u8 {
        refusal as u8
    }
}

// The cause in words.
impl fmt::Display for Refusal {
    ghost output = { λ refusal. Some (words_of refusal) };

    fn fmt<W: fmt::Write>(&self, f: &mut fmt::Formatter<W>) -> fmt::Result {
        f.write_str(match self {
            Refusal::Path => "not a path",
            Refusal::TooLong => "too long",
            Refusal::Shape => "wrong shape",
            Refusal::Memory => "not 4 to 16 whole blocks of memory",
            Refusal::Buffer => "buffer too small",
            Refusal::Kind => "unknown kind",
            Refusal::Field => "bad field",
            Refusal::Conflict => "two nodes of one version differ",
            Refusal::Outside => "outside the flash",
            Refusal::NotPages => "not whole pages",
            Refusal::BelowMark => "below the mark",
            Refusal::OtherHeld => "another block has bytes held",
            Refusal::NoPower => "no power",
            Refusal::Absent => "absent",
            Refusal::Exists => "exists",
            Refusal::WrongKind => "wrong kind",
            Refusal::NotEmpty => "not empty",
            Refusal::NoSpace => "no space",
            Refusal::Exhausted => "numbers exhausted",
            Refusal::NoFull => "no full block",
            Refusal::Unreadable => "unreadable",
        })
    }
}

impl Error for Refusal {}
