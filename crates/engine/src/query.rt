//! What is asked of an engine.
ghost use Rattle.std.specs.Prelude.{◌≡◌};
ghost use Rattle.engine.specs.Piles.{rung};

use aig::Net;

/// Whether the nets `a` and `b` of a graph agree under every input code, where sizes that the engine handles are at most
/// `limit`.
#[derive(Clone, Copy, PartialEq, Eq, Debug)]
pub struct Query {
    pub a: Net,
    pub b: Net,
    pub limit: usize,
}

impl Query {
    /// The same nets at the lower limit of a ladder: the limit divided by 16, rounded down, but at least 1.
    pub fn lowered(self) -> Query
        ensures { result ≡ record self { limit = rung self.limit } }
    {
        Query {
            limit: (self.limit / 16).max(1),
            ..self
        }
    }
}
