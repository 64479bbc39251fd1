//! Making a node, or finding it: each function has one node at most, which is reduced and not inverted at its high edge.
ghost use Rattle.std.specs.Prelude.{◌<◌, length, MatchOption};
ghost use Rattle.bdd.specs.Diagram.{top as first_var, Within, Fits};
ghost use Rattle.bdd.specs.Index.{Lacks};
ghost use Rattle.bdd.specs.Steps.{Placed, Made, Short};
ghost use Rattle.bdd.specs.Contents.{Kept, Full, nodes_of};
ghost use Rattle.bdd.specs.Calls.{Built, Refused};

use super::Table;
use super::nodes::Node;
use crate::edges::{Edge, edge_to, inverse, is_inverted};

impl Table {
    // The edge straight to a node, which is added if the table lacks it; none where the table is full.
    fn place(&mut self, n: &Node) -> Option<Edge>
        requires fits { Fits (nodes_of self.old) (length (nodes_of self.old)) n.now }
        ensures kept { Kept self.old self.new }
        ensures cases { MatchOption result (Full self.old self.new × Lacks (nodes_of self.old) n.now) (λ e. Placed (nodes_of self.old) (nodes_of self.new) n.now e) }
    {
        if let Some(i) = self.set.find(n) {
            return Some(edge_to(i));
        }
        if self.set.is_full() {
            return None;
        }
        let i = self.set.len();
        self.set.link(*n);
        Some(edge_to(i))
    }

    // The edge of the node's function; none where the table is full.
    pub(super) fn mk(&mut self, n: &Node) -> Option<Edge>
        requires bounded { n.now.var < 4096 }
        requires high_within { Within (nodes_of self.old) n.now.high }
        requires low_within { Within (nodes_of self.old) n.now.low }
        requires high_later { n.now.var < first_var (nodes_of self.old) n.now.high }
        requires low_later { n.now.var < first_var (nodes_of self.old) n.now.low }
        ensures kept { Kept self.old self.new }
        ensures cases { MatchOption result (Full self.old self.new × Short (nodes_of self.old) n.now.var n.now.high n.now.low) (λ e. Made (nodes_of self.old) (nodes_of self.new) n.now.var n.now.high n.now.low e) }
    {
        if n.high == n.low {
            return Some(n.high);
        }
        if !is_inverted(n.high) {
            return self.place(n);
        }
        let opposite = Node {
            var: n.var,
            high: inverse(n.high),
            low: inverse(n.low),
        };
        let e = self.place(&opposite)?;
        Some(inverse(e))
    }

    /// The edge of the function that is the variable `v`. None only where it and the functions held have together more
    /// nodes than the table has room for; the table is then as it was.
    pub fn variable(&mut self, v: u16) -> Option<Edge>
        requires bounded { v < 4096 }
        ensures { MatchOption result (Refused self.old self.new (λ ρ. ρ v)) (λ e. Built self.old self.new (λ ρ. ρ v) e) }
    {
        self.mk(&Node::of_variable(v))
    }
}
