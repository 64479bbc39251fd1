//! The AND of two diagrams.
//!
//! It makes no node that the result does not have, so it lacks room only if the result does.
ghost use Rattle.std.specs.Prelude.{◌≤◌, length, MatchOption};
ghost use Rattle.bdd.specs.Diagram.{Within};
ghost use Rattle.bdd.specs.Parts.{conj};
ghost use Rattle.bdd.specs.Steps.{Both, Parts, Lacking};
ghost use Rattle.bdd.specs.Contents.{Kept, nodes_of, limit_of};
ghost use Rattle.bdd.specs.Calls.{Built, Refused};
ghost use Rattle.bdd.specs.Composing.{Is, Still, Extends, Denotes};
ghost use Rattle.bdd.specs.Laws.{TooMany};

use super::Table;
use super::cache::Pair;
use super::nodes::Node;
use crate::edges::{Edge, FALSE, TRUE, inverse};

impl Table {
    // The edge of the function that is true where both are; none where nodes are wanting, and those made so far stay.
    pub(super) fn conjoin(&mut self, f: Edge, g: Edge) -> Option<Edge>
        requires f_within { Within (nodes_of self.old) f }
        requires g_within { Within (nodes_of self.old) g }
        ensures kept { Kept self.old self.new }
        ensures parts { Parts (nodes_of self.old) (nodes_of self.new) f g }
        ensures cases { MatchOption result ((limit_of self.new ≤ length (nodes_of self.new)) × Lacking (nodes_of self.old) (nodes_of self.new) f g) (λ e. Both (nodes_of self.old) (nodes_of self.new) f g e) }
    {
        if f == g || g == TRUE {
            return Some(f);
        }
        if f == TRUE {
            return Some(g);
        }
        if f == FALSE || g == FALSE || f == inverse(g) {
            return Some(FALSE);
        }
        // The two edges become a pair where it is looked up, past the cases that need no look.
        let pair = Pair { f, g };
        if let Some(result) = self.cache.recall(pair) {
            return Some(result);
        }
        let v = self.top(f).min(self.top(g));
        let f_high = self.cofactor(f, v, true);
        let g_high = self.cofactor(g, v, true);
        let f_low = self.cofactor(f, v, false);
        let g_low = self.cofactor(g, v, false);
        let high = self.conjoin(f_high, g_high)?;
        let low = self.conjoin(f_low, g_low)?;
        let result = self.mk(&Node { var: v, high, low })?;
        self.cache.remember(pair, result);
        Some(result)
    }

    // The same, where a new node and what is wanting are said in terms of the function. The clauses follow from those of
    // `conjoin`, and stand apart so that not each of its returns has to prove them too. `still` and `extends` are two,
    // since `map_diagram` promises the second alone.
    pub(super) fn meet(&mut self, f: Edge, g: Edge) -> Option<Edge>
        requires f_within { Within (nodes_of self.old) f }
        requires g_within { Within (nodes_of self.old) g }
        ensures still { Still self.old self.new }
        ensures extends { Extends (λ φ. Is φ (conj (nodes_of self.old) f g)) self.old self.new }
        ensures cases { MatchOption result (TooMany (nodes_of self.old) (limit_of self.old) (conj (nodes_of self.old) f g)) (λ e. Denotes (nodes_of self.new) e (conj (nodes_of self.old) f g)) }
    {
        self.conjoin(f, g)
    }

    /// The edge of the function that is true where both are. None only where it and the functions held have together
    /// more nodes than the table has room for; the nodes are then as they were.
    pub fn and(&mut self, f: Edge, g: Edge) -> Option<Edge>
        requires f_within { Within (nodes_of self.old) f }
        requires g_within { Within (nodes_of self.old) g }
        ensures { MatchOption result (Refused self.old self.new (conj (nodes_of self.old) f g)) (λ e. Built self.old self.new (conj (nodes_of self.old) f g) e) }
    {
        // The cut stands here and in `compose`: this step answers an edge, and that one nothing.
        let mark = self.len();
        let result = self.conjoin(f, g);
        if result.is_none() {
            self.cut(mark);
        }
        result
    }
}
