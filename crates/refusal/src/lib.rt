// What every call of the library may answer instead of its value: a refusal, by the rule that was broken and the rule's number.
//
// The variants are the twelve rules, in their order. Their conditions and the numbers that go with them stand in specs/Rules.antt; how a
// refusal is read as the paper's No. and number, in specs/Read.antt.
#![tactic(auto)]

ghost use Rattle.std.specs.Prelude.{◌≡◌, ◌≤◌};

use std::error::Error;
use std::fmt;

// A rule that always gives the number 0 carries none.
#[derive(Clone, Copy, Debug, PartialEq, Eq, Drop)]
pub enum Refusal {
    Size(u64),
    Offset(u64),
    FirstList(u64),
    SecondList(u64),
    NoRoom(u64),
    GroundNumber(u64),
    CellSides,
    PartOfACell(u64),
    Outside,
    RasterLength,
    PictureText,
    BlockAddress,
}

impl Refusal {
    ghost use Rattle.refusal.specs.Read.{rule_of, number_of};

    // The paper's No.
    pub fn rule(self) -> u64
        ensures is { result ≡ rule_of self }
        ensures most { result ≤ 12 }
    {
        match self {
            Refusal::Size(_) => 1,
            Refusal::Offset(_) => 2,
            Refusal::FirstList(_) => 3,
            Refusal::SecondList(_) => 4,
            Refusal::NoRoom(_) => 5,
            Refusal::GroundNumber(_) => 6,
            Refusal::CellSides => 7,
            Refusal::PartOfACell(_) => 8,
            Refusal::Outside => 9,
            Refusal::RasterLength => 10,
            Refusal::PictureText => 11,
            Refusal::BlockAddress => 12,
        }
    }

    // The number that the rule returns.
    pub fn number(self) -> u64
        ensures { result ≡ number_of self }
    {
        match self {
            Refusal::Size(k)
            | Refusal::Offset(k)
            | Refusal::FirstList(k)
            | Refusal::SecondList(k)
            | Refusal::NoRoom(k)
            | Refusal::GroundNumber(k)
            | Refusal::PartOfACell(k) => k,
            Refusal::CellSides
            | Refusal::Outside
            | Refusal::RasterLength
            | Refusal::PictureText
            | Refusal::BlockAddress => 0,
        }
    }
}

impl fmt::Display for Refusal {
    fn fmt<W: fmt::Write>(&self, f: &mut fmt::Formatter<W>) -> fmt::Result {
        let (rule, number) = (self.rule(), self.number());
        write!(f, "refusal {rule}, number {number}")
    }
}

impl Error for Refusal {}
