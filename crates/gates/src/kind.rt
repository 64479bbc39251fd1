//! A gate kind as a type: its number, which operands it reads, and its Boolean function.
ghost use Rattle.std.specs.Prelude.{◌≡◌};
ghost use Rattle.gates.specs.Kinds.{number_of, reads_b, reads_c, function_of};
ghost use Rattle.gates.specs.Numbers.{Names};

use std::error::Error;
use std::fmt;

/// A gate kind. Operands are a, b and c; the inverse of a value is its negation.
#[derive(Clone, Copy, PartialEq, Eq, Debug)]
pub enum Kind {
    And = 1,
    Or = 2,
    Nand = 3,
    Nor = 4,
    Xor = 5,
    Xnor = 6,
    Not = 7,
    Buf = 8,
    Mux = 9,
}

/// A number that names no gate kind.
#[derive(Clone, Copy, PartialEq, Eq, Debug)]
pub struct UnknownKind(pub u8);

impl TryFrom<u8> for Kind {
    type Error = UnknownKind;

    ghost try_from_gives = { Names };

    /// The kind that a number names, or the number back where it is not 1 to 9.
    fn try_from(number: u8) -> Result<Self, UnknownKind> {
        match number {
            1 => Ok(Kind::And),
            2 => Ok(Kind::Or),
            3 => Ok(Kind::Nand),
            4 => Ok(Kind::Nor),
            5 => Ok(Kind::Xor),
            6 => Ok(Kind::Xnor),
            7 => Ok(Kind::Not),
            8 => Ok(Kind::Buf),
            9 => Ok(Kind::Mux),
            _ => Err(UnknownKind(number)),
        }
    }
}

impl From<Kind> for u8 {
    ghost from_gives = { λ kind number. number ≡ number_of kind };

    /// The number of a kind.
    fn from(kind: Kind) -> u8 {
        kind as u8
    }
}

impl fmt::Display for UnknownKind {
    fn fmt<W: fmt::Write>(&self, f: &mut fmt::Formatter<W>) -> fmt::Result {
        write!(f, "no gate kind has the number {}", self.0)
    }
}

impl Error for UnknownKind {}

impl Kind {
    /// Whether the kind reads operand b: all but NOT and BUF do.
    pub fn reads_b(self) -> bool
        ensures { result ≡ reads_b (number_of self) }
    {
        !matches!(self, Kind::Not | Kind::Buf)
    }

    /// Whether the kind reads operand c: MUX alone does.
    pub fn reads_c(self) -> bool
        ensures { result ≡ reads_c (number_of self) }
    {
        self == Kind::Mux
    }

    /// The Boolean function of a kind: the value of its gate where the operands have these values.
    pub fn value(self, a: bool, b: bool, c: bool) -> bool
        ensures { result ≡ function_of self a b c }
    {
        match self {
            Kind::And => a && b,
            Kind::Or => a || b,
            Kind::Nand => !(a && b),
            Kind::Nor => !(a || b),
            Kind::Xor => a != b,
            Kind::Xnor => a == b,
            Kind::Not => !a,
            Kind::Buf => a,
            Kind::Mux => if a { b } else { c },
        }
    }
}

// The same of a number, for gate records: a record keeps its kind as a number, since a call that is given one refuses a
// number that is no kind. The two differ in their answer alone, and one function for both would have to be told which.

/// Whether the kind with this number reads operand b: all but NOT and BUF do.
pub fn reads_b(number: u8) -> bool
    ensures { result ≡ reads_b number }
{
    !(7..=8).contains(&number)
}

/// Whether the kind with this number reads operand c: MUX alone does.
pub fn reads_c(number: u8) -> bool
    ensures { result ≡ reads_c number }
{
    number == 9
}
