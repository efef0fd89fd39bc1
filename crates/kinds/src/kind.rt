// The kinds of rules and their numbers.
ghost use Rattle.std.specs.Prelude.{◌≡◌, Some};
ghost use Rattle.kinds.specs.Kinds.{kind_of, kind_or_number, no_kind_text, number_of};

use std::error::Error;
use std::fmt;

// What a rule asks of the values x and y of its two lines.
#[derive(Clone, Copy, PartialEq, Eq, Hash, Debug)]
pub enum Kind {
    // |x - y| > k
    Apart,
    // |x - y| = k
    Exact,
    // x + k <= y
    After,
    // x + k <= y or y + m <= x
    Either,
    // (x - y) / m, rounded down towards minus infinity, is k
    Step,
}

// A number that no kind has.
#[derive(Clone, Copy, PartialEq, Eq, Hash, Debug)]
pub struct NoSuchKind(pub u8);

impl fmt::Display for NoSuchKind {
    ghost output = { λ e. Some (no_kind_text e.0) };

    fn fmt<W: fmt::Write>(&self, f: &mut fmt::Formatter<W>) -> fmt::Result {
        write!(f, "no kind of rule has the number {}", self.0)
    }
}

impl Error for NoSuchKind {}

// The kind of a number from 1 to 5.
impl TryFrom<u8> for Kind {
    type Error = NoSuchKind;

    ghost try_from_gives = { λ number r. r ≡ kind_or_number number };

    fn try_from(number: u8) -> Result<Kind, NoSuchKind> {
        match number {
            1 => Ok(Kind::Apart),
            2 => Ok(Kind::Exact),
            3 => Ok(Kind::After),
            4 => Ok(Kind::Either),
            5 => Ok(Kind::Step),
            _ => Err(NoSuchKind(number)),
        }
    }
}

// The number of a kind, which the kind is made from again.
impl From<Kind> for u8 {
    ghost from_gives = { λ kind number. (number ≡ number_of kind) × (kind_of number ≡ Some kind) };

    fn from(kind: Kind) -> u8 {
        match kind {
            Kind::Apart => 1,
            Kind::Exact => 2,
            Kind::After => 3,
            Kind::Either => 4,
            Kind::Step => 5,
        }
    }
}

impl Kind {
    // The kind of a number from 1 to 5, where why there is none does not matter.
    pub fn numbered(number: u8) -> Option<Kind>
        ensures { result ≡ kind_of number }
    {
        Kind::try_from(number).ok()
    }
}
