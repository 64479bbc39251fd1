//! Nodes: a function that is chosen by one variable.
ghost use Rattle.std.specs.Prelude.{◌≡◌, ◌<◌};
ghost use Rattle.bdd.specs.Diagram.{child as child_of, node};
ghost use Rattle.bdd.specs.Index.{bucket_of};

use crate::edges::{Edge, FALSE, TRUE};

/// The function that is `high` where the variable is true, and else `low`.
#[derive(Clone, Copy, PartialEq, Eq, Debug, Drop)]
pub struct Node {
    pub(crate) var: u16,
    pub(crate) high: Edge,
    pub(crate) low: Edge,
}

impl Node {
    // The node of a variable: true where it is.
    pub(crate) fn of_variable(v: u16) -> Node
        ensures { result ≡ node v 1 0 }
    {
        Node {
            var: v,
            high: TRUE,
            low: FALSE,
        }
    }

    // The edge that the node leads to where its variable has this value.
    pub(crate) fn child(self, value: bool) -> Edge
        ensures { result ≡ child_of self value }
    {
        if value { self.high } else { self.low }
    }

    // The bucket of the node, of m buckets.
    pub(crate) fn bucket(self, m: usize) -> usize
        requires { 0 < m }
        ensures { (result ≡ bucket_of m self) × (result < m) }
    {
        (self.var as usize * 12582917 + self.high as usize * 4256249 + self.low as usize * 741457)
            % m
    }
}
