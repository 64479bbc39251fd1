//! Marking the nodes of a diagram, from its own node down, in scratch of the table.
//!
//! These are functions of the nodes and the marks, and not methods of the table: so it shows that only marks change.
//! They take the nodes, with `Good`, and not the set, whose type has it: the index has no part in what they do.
ghost use Rattle.std.specs.Prelude.{◌≡◌, ℕ, ◌/◌, ◌<◌, ◌≤◌, false, length, count_by};
ghost use Rattle.bdd.specs.Diagram.{node_at, Within, Good};
ghost use Rattle.bdd.specs.Marking.{at, with_mark, Marks};

use super::nodes::Node;
use crate::edges::{Edge, place_of};

// Marks the node of an edge.
fn mark(marks: &mut [bool], e: Edge)
    requires { e / 2 ≤ length marks.old }
    ensures { marks.new ≡ with_mark marks.old (e / 2) }
{
    let place = place_of(e);
    if place > 0 {
        marks[place - 1] = true;
    }
}

// Marks the nodes that the node i leads to.
fn mark_children(nodes: &[Node], marks: &mut [bool], i: usize)
    requires good { Good nodes.now }
    requires inside { i < length nodes.now }
    requires room { i < length marks.old }
    ensures { marks.new ≡ with_mark (with_mark marks.old ((node_at nodes.now i).high / 2)) ((node_at nodes.now i).low / 2) }
{
    let n = nodes[i];
    mark(marks, n.high);
    mark(marks, n.low);
}

// Marks the nodes of the edge's diagram, and no other node before the edge's own.
pub(super) fn mark_diagram(nodes: &[Node], marks: &mut [bool], e: Edge)
    requires good { Good nodes.now }
    requires within { Within nodes.now e }
    requires room { e / 2 ≤ length marks.old }
    ensures { Marks nodes.now e (e / 2) 0 (at marks.new) }
{
    let n = place_of(e);
    marks[..n].fill(false);
    mark(marks, e);
    for i in (0..n).rev() {
        if marks[i] {
            mark_children(nodes, marks, i);
        }
    }
}

// How many marks are set.
pub(super) fn count_marks(marks: &[bool]) -> usize
    ensures { result ≡ count_by (λ marked. marked) marks.now }
{
    // A loop, and not `filter` and `count`: with these, counting took half as long again.
    let mut count = 0;
    for &marked in marks {
        count += usize::from(marked);
    }
    count
}
