//! The AND of two nets.
ghost use Rattle.std.specs.Prelude.{◌≡◌, ◌*◌, ◌/◌, ◌<◌, [], ◌∷◌, ◌++◌, length};
ghost use Rattle.aig.specs.Table.{Stands, vertex};
ghost use Rattle.aig.specs.Pairs.{Unknown};
ghost use Rattle.aig.specs.Ands.{Anded};
ghost use Rattle.aig.specs.Graphs.{inputs_of, places_of, vertices, used, InUse, SameBounds};

use super::Graph;
use crate::net::Net;
use crate::pair::Pair;
use crate::vertex::Vertex;

impl Graph {
    /// The net that is the AND of `x` and `y`: what the pair of their survivors folds to, else the standing vertex that has
    /// this pair, else a fresh vertex.
    pub fn and(&mut self, x: Net, y: Net) -> Net
        requires first { InUse self.old x }
        requires second { InUse self.old y }
        requires room { used self.old < places_of self.old }
        ensures made { Anded (inputs_of self.old) (vertices self.old) x.0 y.0 result.0 (vertices self.new) }
        ensures same { SameBounds self.old self.new }
    {
        let table = self.as_table();
        let pair = table.pair(x, y);
        match table.lookup(pair) {
            Some(net) => net,
            None => self.grow(pair),
        }
    }

    /// Adds a vertex for a pair that no vertex has.
    fn grow(&mut self, pair: Pair) -> Net
        requires fresh { Unknown (inputs_of self.old) (vertices self.old) pair.low.0 pair.high.0 }
        requires first { (InUse self.old pair.low) × (Stands (vertices self.old) (pair.low.0 / 2)) }
        requires second { (InUse self.old pair.high) × (Stands (vertices self.old) (pair.high.0 / 2)) }
        requires room { used self.old < places_of self.old }
        ensures net { result.0 ≡ 2 * used self.old }
        ensures table { vertices self.new ≡ vertices self.old ++ vertex pair.low.0 pair.high.0 (2 * used self.old) ∷ [] }
        ensures same { SameBounds self.old self.new }
    {
        let net = Net::of(self.table.len());
        self.table.push_reserved(Vertex {
            left: pair.low,
            right: pair.high,
            link: net,
        });
        net
    }
}
