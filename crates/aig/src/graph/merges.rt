//! Merging vertices whose functions are equal or inverse.
ghost use Rattle.std.specs.Prelude.{◌≡◌};
ghost use Rattle.aig.specs.Merges.{Mergeable, AfterMerge, Joinable, Joined};
ghost use Rattle.aig.specs.Graphs.{inputs_of, vertices, SameBounds};

use super::Graph;
use crate::cascade::merge;
use crate::net::Net;
use crate::pair::Pair;

impl Graph {
    /// Gives two nets that agree under every code one survivor: the later vertex joins the earlier.
    pub fn join(&mut self, x: Net, y: Net)
        requires { Joinable (inputs_of self.old) (vertices self.old) x.0 y.0 }
        ensures joined { Joined (inputs_of self.old) (vertices self.old) x.0 y.0 (vertices self.new) }
        ensures same { SameBounds self.old self.new }
    {
        let Pair { low, high } = self.as_table().pair(x, y);
        if low != high {
            self.merge(low.carried(high), high.vertex());
        }
    }

    /// Merges the vertex `gone` into the net `keep` of an earlier vertex, which has its value.
    pub fn merge(&mut self, keep: Net, gone: usize)
        requires { Mergeable (inputs_of self.old) (vertices self.old) keep.0 gone }
        ensures after { AfterMerge (inputs_of self.old) (vertices self.old) keep.0 gone (vertices self.new) }
        ensures same { SameBounds self.old self.new }
    {
        merge(&mut self.table, self.inputs, keep, gone);
    }
}
