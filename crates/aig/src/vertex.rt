//! Vertices as the table holds them.
ghost use Rattle.std.specs.Prelude.{◌≡◌, ◌*◌, ◌/◌, ◌<◌, ◌^◌, ◌⊎◌, IsTrue, ◌↔◌};

use crate::net::Net;
use crate::pair::Pair;

/// A vertex of the graph: the two nets that it is the AND of, and the net that stands for it.
// `left` and `right`, no `Pair`: the definitions read them of every vertex, also of the constant and the inputs.
#[derive(Clone, Copy, PartialEq, Eq, Debug)]
pub struct Vertex {
    pub left: Net,
    pub right: Net,
    pub link: Net,
}

impl Vertex {
    /// Whether one of the vertex's nets is of the vertex `v`.
    pub fn reads(self, v: usize) -> bool
        ensures { IsTrue result ↔ ((self.left.0 / 2 ≡ v) ⊎ (self.right.0 / 2 ≡ v)) }
    {
        self.left.vertex() == v || self.right.vertex() == v
    }

    /// Whether the vertex, in its place, stands: whether it is its own survivor.
    // Each place below 2^15 has a net, so one comparison of nets decides.
    pub fn stands(self, place: usize) -> bool
        requires { place < 2 ^ 15 }
        ensures { IsTrue result ↔ (self.link.0 ≡ 2 * place) }
    {
        self.link == Net::of(place)
    }

    /// The vertex with the pair in place of its nets.
    pub(crate) fn with(self, pair: Pair) -> Vertex
        ensures { result ≡ record { left = pair.low; right = pair.high; link = self.link } }
    {
        Vertex {
            left: pair.low,
            right: pair.high,
            ..self
        }
    }
}
