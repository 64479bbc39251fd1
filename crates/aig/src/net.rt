//! Nets: numbers that name the value of a vertex or its inverse.
ghost use Rattle.std.specs.Prelude.{◌≡◌, ◌*◌, ◌/◌, ◌%◌, ◌<◌, ◌^◌, IsTrue, ◌↔◌};
ghost use Rattle.aig.specs.Nets.{carried, inverse};

use std::fmt;

/// A net: `2v` is the value of vertex `v`, and `2v + 1` is its inverse.
#[derive(Clone, Copy, PartialEq, Eq, PartialOrd, Ord, Debug)]
pub struct Net(pub u16);

impl Net {
    /// The constant false.
    pub const FALSE: Net = Net(0);

    /// The constant true.
    pub const TRUE: Net = Net(1);

    /// The net of a vertex, straight.
    // A conversion that asks something of its caller, so no `From`.
    pub fn of(vertex: usize) -> Net
        requires { vertex < 2 ^ 15 }
        ensures { result.0 ≡ 2 * vertex }
    {
        Net(2 * vertex as u16)
    }

    /// The vertex whose value, or its inverse, the net is.
    pub fn vertex(self) -> usize
        ensures { result ≡ self.0 / 2 }
    {
        self.0 as usize / 2
    }

    /// Whether the net is its vertex's inverse.
    pub fn is_inverse(self) -> bool
        ensures { IsTrue result ↔ (self.0 % 2 ≡ 1) }
    {
        self.0 % 2 == 1
    }

    /// The inverse net.
    pub fn inverse(self) -> Net
        ensures { result.0 ≡ inverse self.0 }
    {
        Net(self.0 ^ 1)
    }

    /// This net, inverted where `other` is an inverse.
    pub fn carried(self, other: Net) -> Net
        ensures { result.0 ≡ carried self.0 other.0 }
    {
        Net(self.0 ^ (other.0 & 1))
    }
}

/// A net is printed as its number.
impl fmt::Display for Net {
    fn fmt<W: fmt::Write>(&self, f: &mut fmt::Formatter<W>) -> fmt::Result {
        write!(f, "{}", self.0)
    }
}
