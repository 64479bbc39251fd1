//! Reading a diagram from its edge: the variable that it looks at first, and what it is where that variable is fixed.
ghost use Rattle.std.specs.Prelude.{◌≡◌, ◌<◌, ◌≤◌};
ghost use Rattle.bdd.specs.Diagram.{top as first_var, Within};
ghost use Rattle.bdd.specs.Steps.{Cofactor};
ghost use Rattle.bdd.specs.Contents.{nodes_of};

use super::Table;
use crate::edges::{Edge, place_of, turned};

// What stands for the variable of a constant: it comes after every variable, so that the lesser of two first variables
// is the first of both.
// A variable is a `u16` below it, by a clause: a narrower type would be one more number to convert at each call.
pub(super) const NO_VAR: u16 = 4096;

impl Table {
    // The variable that the edge's function looks at first, or `NO_VAR` at a constant.
    pub(super) fn top(&self, e: Edge) -> u16
        requires { Within (nodes_of self.now) e }
        ensures { result ≡ first_var (nodes_of self.now) e }
    {
        let place = place_of(e);
        if place == 0 {
            NO_VAR
        } else {
            self.set.nodes[place - 1].var
        }
    }

    // What the edge's function is where `v` is fixed; `v` comes no later than the edge's first variable.
    pub(super) fn cofactor(&self, e: Edge, v: u16, value: bool) -> Edge
        requires within { Within (nodes_of self.now) e }
        requires first { v ≤ first_var (nodes_of self.now) e }
        requires inner { v < 4096 }
        ensures { Cofactor (nodes_of self.now) e v value result }
    {
        if self.top(e) != v {
            return e;
        }
        let n = self.set.nodes[place_of(e) - 1];
        turned(e, n.child(value))
    }
}
