//! The size of a diagram, which is the size of its function.
ghost use Rattle.std.specs.Prelude.{◌≡◌, ℕ, ◌/◌, ◌≤◌, List, length};
ghost use Rattle.bdd.specs.Diagram.{eval, Within, Good};
ghost use Rattle.bdd.specs.Size.{Ascending, size_of};
ghost use Rattle.bdd.specs.Laws.{Inputs};
ghost use Rattle.bdd.specs.Contents.{nodes_of};
ghost use Rattle.bdd.specs.Calls.{Unchanged};

use super::Table;
use super::marking::{count_marks, mark_diagram};
use super::nodes::Node;
use crate::edges::{Edge, place_of};

// How many nodes the edge's function has, counted by marks.
fn diagram_size(nodes: &[Node], marks: &mut [bool], e: Edge) -> usize
    requires good { Good nodes.now }
    requires within { Within nodes.now e }
    requires room { e / 2 ≤ length marks.old }
    ensures { (vs : List ℕ) → Ascending vs → Inputs nodes.now vs → result ≡ size_of vs (λ ρ. eval nodes.now ρ e) }
{
    mark_diagram(nodes, marks, e);
    count_marks(&marks[..place_of(e)])
}

impl Table {
    /// How many nodes the edge's function has. The nodes of the table stay as they are.
    pub fn size(&mut self, e: Edge) -> usize
        requires within { Within (nodes_of self.old) e }
        ensures same { Unchanged self.old self.new }
        ensures size { (vs : List ℕ) → Ascending vs → Inputs (nodes_of self.old) vs → result ≡ size_of vs (λ ρ. eval (nodes_of self.old) ρ e) }
    {
        let set = &self.set;
        diagram_size(&set.nodes, &mut self.marks, e)
    }
}
