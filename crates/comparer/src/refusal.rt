//! Why a call is refused, and which refusal the errors of the layers below become.
ghost use Rattle.std.specs.Prelude.{◌≡◌};
ghost use Rattle.comparer.specs.Refusals.{number_of};
ghost use Rattle.comparer.specs.declared.refusal.Refusal.TheVariants.{GateKind, Memory};

use gates::UnknownKind;
use std::alloc::AllocError;
use std::error::Error;
use std::fmt;

/// Why a call was refused. Each case has a number; `Memory` has none of the product's numbers and is given 0.
#[derive(Clone, Copy, PartialEq, Eq, Debug)]
pub enum Refusal {
    /// Opening with a number of inputs that is not 1 to 64.
    InputCount = 1,
    /// A net of a vertex that is not in use.
    NetNotInUse = 2,
    /// A gate kind that is not 1 to 9.
    GateKind = 3,
    /// An operand that the kind does not read, and that is not 0.
    UnusedOperand = 4,
    /// An input code with a bit at n or above.
    CodeTooWide = 11,
    /// Opening with a table shorter than n + 1 or longer than 4,096.
    TableLength = 20,
    /// Fewer than three vertices left.
    VerticesLeft = 21,
    /// Workspace with fewer words than vertices in use.
    Workspace = 23,
    /// No memory for the table.
    Memory = 0,
}

impl Refusal {
    /// The number by which the refusal is known.
    // A method and no `From`, beside `words`: the two are what a refusal says of itself.
    pub fn number(self) -> u8
        ensures { result ≡ number_of self }
    {
        self as u8
    }

    /// The refusal in words.
    pub fn words(self) -> &'static str {
        match self {
            Refusal::InputCount => "the number of inputs is not 1 to 64",
            Refusal::NetNotInUse => "the net is of a vertex that is not in use",
            Refusal::GateKind => "the gate kind is not 1 to 9",
            Refusal::UnusedOperand => "an operand that the kind does not read is not 0",
            Refusal::CodeTooWide => "the code has a bit beyond the inputs",
            Refusal::TableLength =>
                "the table is shorter than the inputs and one, or longer than 4096",
            Refusal::VerticesLeft => "fewer than three vertices are left",
            Refusal::Workspace => "the workspace has fewer words than there are vertices in use",
            Refusal::Memory => "there is no memory for the table",
        }
    }
}

impl fmt::Display for Refusal {
    fn fmt<W: fmt::Write>(&self, f: &mut fmt::Formatter<W>) -> fmt::Result {
        let number = self.number();
        let words = self.words();
        write!(f, "{number}: {words}")
    }
}

impl Error for Refusal {}

impl From<UnknownKind> for Refusal {
    ghost from_gives = { λ _ refusal. refusal ≡ GateKind };

    fn from(_unknown: UnknownKind) -> Refusal {
        Self::GateKind
    }
}

impl From<AllocError> for Refusal {
    ghost from_gives = { λ _ refusal. refusal ≡ Memory };

    fn from(_error: AllocError) -> Refusal {
        Self::Memory
    }
}
