//! Pairs of nets, the smaller first.
ghost use Rattle.std.specs.Prelude.{◌≡◌, ◌≤◌, min, max};

use crate::net::Net;

/// Two nets, the smaller first.
#[derive(Clone, Copy, PartialEq, Eq, Debug)]
pub struct Pair {
    pub low: Net,
    pub high: Net,
    ghost ordered: { low.0 ≤ high.0 },
}

impl Pair {
    /// Two nets as a pair.
    pub fn new(x: Net, y: Net) -> Pair
        ensures low { result.low.0 ≡ min x.0 y.0 }
        ensures high { result.high.0 ≡ max x.0 y.0 }
    {
        Pair {
            low: x.min(y),
            high: x.max(y),
        }
    }
}
