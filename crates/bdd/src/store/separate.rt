//! A code under which two different diagrams differ, found on the way down both. It needs no node.
ghost use Rattle.std.specs.Prelude.{◌≡◌, ◌^◌, ◌<◌, ◌≤◌, not, ◌≢◌};
ghost use Rattle.bdd.specs.Diagram.{eval, Within};
ghost use Rattle.bdd.specs.Contents.{nodes_of};
ghost use Rattle.bdd.specs.Codes.{assigned, OverInputs};

use super::Table;
use crate::edges::{Edge, TRUE};

impl Table {
    /// A code of `n` bits under which two different diagrams over `n` inputs differ; bit k is the value of input k, which
    /// is the variable k + 1.
    pub fn separate(&self, n: usize, first: Edge, second: Edge) -> u64
        requires few { n ≤ 64 }
        requires first_within { Within (nodes_of self.now) first }
        requires second_within { Within (nodes_of self.now) second }
        requires first_over { OverInputs n (nodes_of self.now) first }
        requires second_over { OverInputs n (nodes_of self.now) second }
        requires differ { first ≢ second }
        ensures small { result < 2 ^ n }
        ensures differ { eval (nodes_of self.now) (assigned result) first ≡ not (eval (nodes_of self.now) (assigned result) second) }
    {
        let mut e = first;
        let mut f = second;
        let mut code = 0;
        while e > TRUE || f > TRUE {
            let v = self.top(e).min(self.top(f));
            let e_high = self.cofactor(e, v, true);
            let f_high = self.cofactor(f, v, true);
            if e_high != f_high {
                e = e_high;
                f = f_high;
                code += 1u64 << (v - 1);
            } else {
                e = self.cofactor(e, v, false);
                f = self.cofactor(f, v, false);
            }
        }
        code
    }
}
