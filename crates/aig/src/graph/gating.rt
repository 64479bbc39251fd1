//! The nine gate kinds, each by its ANDs in their order.
ghost use Rattle.std.specs.Prelude.{◌≡◌, ◌+◌, ◌≤◌, true};
ghost use Rattle.gates.specs.Kinds.{number_of, reads_b, reads_c};
ghost use Rattle.aig.specs.Kinds.{Gated, Neither};
ghost use Rattle.aig.specs.Graphs.{inputs_of, places_of, vertices, used, InUse, SameBounds};

use super::Graph;
use crate::net::Net;
use gates::Kind;

impl Graph {
    /// The net of a gate, with its kind's Boolean function of its operands.
    // `kind, a, b, c`: operands are told apart by their place, and a struct of the four would only be taken apart again here.
    pub fn gate(&mut self, kind: Kind, a: Net, b: Net, c: Net) -> Net
        requires first { InUse self.old a }
        requires second { reads_b (number_of kind) ≡ true → InUse self.old b }
        requires third { reads_c (number_of kind) ≡ true → InUse self.old c }
        requires room { used self.old + 3 ≤ places_of self.old }
        ensures made { Gated (inputs_of self.old) (vertices self.old) kind a.0 b.0 c.0 result.0 (vertices self.new) }
        ensures same { SameBounds self.old self.new }
    {
        match kind {
            Kind::And => self.and(a, b),
            Kind::Or => self.and(a.inverse(), b.inverse()).inverse(),
            Kind::Nand => self.and(a, b).inverse(),
            Kind::Nor => self.and(a.inverse(), b.inverse()),
            Kind::Xor => self.neither(a, b, a.inverse(), b.inverse()),
            Kind::Xnor => self.neither(a, b, a.inverse(), b.inverse()).inverse(),
            Kind::Not => a.inverse(),
            Kind::Buf => a,
            Kind::Mux => self.neither(a, b, a.inverse(), c).inverse(),
        }
    }

    /// AND(¬P, ¬Q), where P is AND(a, b) and Q, made after it, is AND(c, d).
    fn neither(&mut self, a: Net, b: Net, c: Net, d: Net) -> Net
        requires first { (InUse self.old a) × (InUse self.old b) }
        requires second { (InUse self.old c) × (InUse self.old d) }
        requires room { used self.old + 3 ≤ places_of self.old }
        ensures made { Neither (inputs_of self.old) (vertices self.old) a.0 b.0 c.0 d.0 result.0 (vertices self.new) }
        ensures same { SameBounds self.old self.new }
    {
        let p = self.and(a, b);
        let q = self.and(c, d);
        self.and(p.inverse(), q.inverse())
    }
}
