//! The topmost variable of a diagram above a bound: the least one that its function depends on.
ghost use Rattle.std.specs.Prelude.{◌≡◌, ℕ, ◌/◌, ◌<◌, ◌≤◌, length, MatchOption};
ghost use Rattle.bdd.specs.Diagram.{eval, Within, Good};
ghost use Rattle.bdd.specs.Marking.{at};
ghost use Rattle.bdd.specs.Reading.{Ignores, Topmost, least_of};
ghost use Rattle.bdd.specs.Contents.{nodes_of};
ghost use Rattle.bdd.specs.Calls.{Unchanged};

use super::Table;
use super::marking::mark_diagram;
use super::nodes::Node;
use crate::edges::{Edge, place_of};

// The least variable above the bound of the marked nodes, if there is one.
fn least_above(nodes: &[Node], marks: &[bool], bound: u16) -> Option<u16>
    ensures { result ≡ least_of nodes.now marks.now bound }
{
    nodes
        .iter()
        .zip(marks)
        .filter(|&(n, &marked)| marked && n.var > bound)
        .map(|(n, _)| n.var)
        .min()
}

// The topmost variable above the bound, found by marks.
fn topmost_of(nodes: &[Node], marks: &mut [bool], e: Edge, bound: u16) -> Option<u16>
    requires good { Good nodes.now }
    requires within { Within nodes.now e }
    requires room { e / 2 ≤ length marks.old }
    ensures { MatchOption result ((u : ℕ) → bound < u → Ignores (λ ρ. eval nodes.now ρ e) u) (λ v. Topmost (λ ρ. eval nodes.now ρ e) bound v) }
{
    mark_diagram(nodes, marks, e);
    let n = place_of(e);
    least_above(&nodes[..n], &marks[..n], bound)
}

impl Table {
    /// The least variable above the bound that the edge's function depends on, if there is one.
    pub fn topmost(&mut self, e: Edge, bound: u16) -> Option<u16>
        requires within { Within (nodes_of self.old) e }
        ensures same { Unchanged self.old self.new }
        ensures cases { MatchOption result ((u : ℕ) → bound < u → Ignores (λ ρ. eval (nodes_of self.old) ρ e) u) (λ v. Topmost (λ ρ. eval (nodes_of self.old) ρ e) bound v) }
    {
        let set = &self.set;
        topmost_of(&set.nodes, &mut self.marks, e, bound)
    }
}
