//! Composition: a function in the place of a variable.
//!
//! The nodes of the diagram are gone through from the first to the last, so that a node's children have their images
//! when its own is made: the choice between them, by what takes the place of the node's variable.
ghost use Rattle.std.specs.Prelude.{◌≡◌, ◌+◌, ◌*◌, ◌/◌, ◌<◌, ◌≤◌, length, MatchOption};
ghost use Rattle.bdd.specs.Diagram.{node_at, eval, Within};
ghost use Rattle.bdd.specs.Laws.{TooMany};
ghost use Rattle.bdd.specs.Contents.{nodes_of, limit_of};
ghost use Rattle.bdd.specs.Calls.{Unchanged};
ghost use Rattle.bdd.specs.Composing.{Is, Still, Extends, Denotes, NoRoom, ChoiceStep, choice, tested, composed, NodeStep, ComposeStep, carried};

use super::Table;
use super::marking::mark_diagram;
use super::nodes::Node;
use crate::edges::{Edge, FALSE, edge_to, inverse, place_of, turned};

// The image of an edge, where each node before it has one.
fn carry(images: &[Edge], e: Edge) -> Edge
    requires { e / 2 ≤ length images.now }
    ensures { result ≡ carried images.now e }
{
    let place = place_of(e);
    let straight = if place == 0 { FALSE } else { images[place - 1] };
    turned(e, straight)
}

// The edge `by` in the place of the variable `var`.
#[derive(Clone, Copy, Drop)]
struct Substitution {
    var: u16,
    by: Edge,
}

impl Table {
    // What takes the place of the variable w: the edge of the change in that of its own, and else the variable itself.
    fn test(&mut self, w: u16, change: Substitution) -> Option<Edge>
        requires bounded { w < 4096 }
        requires within { Within (nodes_of self.old) change.by }
        ensures still { Still self.old self.new }
        ensures extends { Extends (λ φ. Is φ (tested (nodes_of self.old) change.var change.by w)) self.old self.new }
        ensures cases { MatchOption result (TooMany (nodes_of self.old) (limit_of self.old) (tested (nodes_of self.old) change.var change.by w)) (λ e. Denotes (nodes_of self.new) e (tested (nodes_of self.old) change.var change.by w)) }
    {
        if w == change.var {
            return Some(change.by);
        }
        self.mk(&Node::of_variable(w))
    }

    // The function that is `high` where the test is true, and else `low`.
    fn choose(&mut self, test: Edge, high: Edge, low: Edge) -> Option<Edge>
        requires test_within { Within (nodes_of self.old) test }
        requires high_within { Within (nodes_of self.old) high }
        requires low_within { Within (nodes_of self.old) low }
        ensures still { Still self.old self.new }
        ensures extends { Extends (ChoiceStep (λ ρ. eval (nodes_of self.old) ρ test) (λ ρ. eval (nodes_of self.old) ρ high) (λ ρ. eval (nodes_of self.old) ρ low)) self.old self.new }
        ensures cases { MatchOption result (NoRoom (ChoiceStep (λ ρ. eval (nodes_of self.old) ρ test) (λ ρ. eval (nodes_of self.old) ρ high) (λ ρ. eval (nodes_of self.old) ρ low)) (nodes_of self.old) (limit_of self.old)) (λ e. Denotes (nodes_of self.new) e (choice (λ ρ. eval (nodes_of self.old) ρ test) (λ ρ. eval (nodes_of self.old) ρ high) (λ ρ. eval (nodes_of self.old) ρ low))) }
    {
        let one = self.meet(test, high)?;
        let other = self.meet(inverse(test), low)?;
        let neither = self.meet(inverse(one), inverse(other))?;
        Some(inverse(neither))
    }

    // The image of the node i, whose children have theirs. A node past the variable is its own.
    fn image(&mut self, i: usize, change: Substitution) -> Option<Edge>
        requires inside { i < length (nodes_of self.old) }
        requires within { Within (nodes_of self.old) change.by }
        requires high { Denotes (nodes_of self.old) (carried self.old.images.items (node_at (nodes_of self.old) i).high) (composed (nodes_of self.old) change.var change.by (node_at (nodes_of self.old) i).high) }
        requires low { Denotes (nodes_of self.old) (carried self.old.images.items (node_at (nodes_of self.old) i).low) (composed (nodes_of self.old) change.var change.by (node_at (nodes_of self.old) i).low) }
        ensures still { Still self.old self.new }
        ensures extends { Extends (NodeStep (nodes_of self.old) change.var change.by i) self.old self.new }
        ensures cases { MatchOption result (NoRoom (NodeStep (nodes_of self.old) change.var change.by i) (nodes_of self.old) (limit_of self.old)) (λ e. Denotes (nodes_of self.new) e (composed (nodes_of self.old) change.var change.by (2 * (i + 1)))) }
    {
        let n = self.set.nodes[i];
        if n.var > change.var {
            return Some(edge_to(i));
        }
        let high = carry(&self.images, n.high);
        let low = carry(&self.images, n.low);
        let test = self.test(n.var, change)?;
        self.choose(test, high, low)
    }

    // Gives each node of the diagram its image; none where nodes are wanting, and those made so far stay.
    fn map_diagram(&mut self, f: Edge, change: Substitution) -> Option<()>
        requires f_within { Within (nodes_of self.old) f }
        requires g_within { Within (nodes_of self.old) change.by }
        ensures extends { Extends (ComposeStep (nodes_of self.old) f change.var change.by) self.old self.new }
        ensures cases { MatchOption result (NoRoom (ComposeStep (nodes_of self.old) f change.var change.by) (nodes_of self.old) (limit_of self.old)) (λ _. Denotes (nodes_of self.new) (carried self.new.images.items f) (composed (nodes_of self.old) change.var change.by f)) }
    {
        let set = &self.set;
        mark_diagram(&set.nodes, &mut self.marks, f);
        for i in 0..place_of(f) {
            if self.marks[i] {
                self.images[i] = self.image(i, change)?;
            }
        }
        Some(())
    }

    /// The edge of the function of `f` with that of `g` in the place of the variable `v`. None only where the functions
    /// held and those of the steps have together more nodes than the table has room for; the nodes are then as they were.
    pub fn compose(&mut self, f: Edge, v: u16, g: Edge) -> Option<Edge>
        requires f_within { Within (nodes_of self.old) f }
        requires g_within { Within (nodes_of self.old) g }
        ensures { MatchOption result (Unchanged self.old self.new × NoRoom (ComposeStep (nodes_of self.old) f v g) (nodes_of self.old) (limit_of self.old)) (λ e. Extends (ComposeStep (nodes_of self.old) f v g) self.old self.new × Denotes (nodes_of self.new) e (composed (nodes_of self.old) v g f)) }
    {
        let mark = self.len();
        if self
            .map_diagram(f, Substitution { var: v, by: g })
            .is_none()
        {
            self.cut(mark);
            return None;
        }
        Some(carry(&self.images, f))
    }
}
