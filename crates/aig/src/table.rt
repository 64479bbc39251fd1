//! Tables as they are read: survivors, which vertex has a pair, and the AND of a pair without a new vertex.
ghost use Rattle.std.specs.Prelude.{◌≡◌, ◌/◌, ◌^◌, ◌<◌, ◌≤◌, length, MatchOption};
ghost use Rattle.aig.specs.Table.{survivor_of};
ghost use Rattle.aig.specs.Pairs.{Ordered, Absent, Present, Known, Unknown};

use crate::net::Net;
use crate::pair::Pair;
use crate::vertex::Vertex;

/// A table of vertices over so many inputs, to be read.
#[derive(Clone, Copy)]
pub struct Table<'a> {
    pub inputs: usize,
    pub vertices: &'a [Vertex],
    ghost few: { inputs < 2 ^ 16 },
    ghost small: { length vertices.now ≤ 4096 },
}

impl Table<'_> {
    /// The net that stands for `net`.
    pub fn survivor(self, net: Net) -> Net
        requires { net.0 / 2 < length self.vertices.now }
        ensures { result.0 ≡ survivor_of self.entry.vertices.now net.0 }
    {
        self.vertices[net.vertex()].link.carried(net)
    }

    /// The survivors of two nets as a pair.
    pub fn pair(self, x: Net, y: Net) -> Pair
        requires first { x.0 / 2 < length self.vertices.now }
        requires second { y.0 / 2 < length self.vertices.now }
        ensures { Ordered (survivor_of self.entry.vertices.now x.0) (survivor_of self.entry.vertices.now y.0) result.low.0 result.high.0 }
    {
        Pair::new(self.survivor(x), self.survivor(y))
    }

    /// The net of the standing vertex after the inputs that has the pair.
    pub fn find(self, pair: Pair) -> Option<Net>
        ensures { MatchOption result
            (Absent self.entry.inputs self.entry.vertices.now pair.low.0 pair.high.0)
            (λ net. Present self.entry.inputs self.entry.vertices.now pair.low.0 pair.high.0 net.0) }
    {
        // A loop over the fields, since the time of a search hangs on how it is compiled: by `enumerate` and `find` a full table
        // took 1.7 times the time in one program, and each merge within a merge more of the stack.
        for v in self.inputs + 1..self.vertices.len() {
            if self.vertices[v].left == pair.low
                && self.vertices[v].right == pair.high
                && self.vertices[v].link.0 as usize == 2 * v
            {
                return Some(Net::of(v));
            }
        }
        None
    }

    /// The net that is the AND of a pair: in turn, what a constant, two equal nets or two inverse nets fold to, and the net
    /// of the standing vertex that has the pair. None where the AND needs a new vertex.
    // The arms stand in the order in which they are tried, the search as one of them: it is made where no fold answers.
    pub fn lookup(self, pair: Pair) -> Option<Net>
        ensures { MatchOption result
            (Unknown self.entry.inputs self.entry.vertices.now pair.low.0 pair.high.0)
            (λ net. Known self.entry.inputs self.entry.vertices.now pair.low.0 pair.high.0 net.0) }
    {
        match (pair.low, pair.high) {
            (Net::FALSE, _) => Some(Net::FALSE),
            (Net::TRUE, high) => Some(high),
            (low, high) if low == high => Some(low),
            (low, high) if high == low.inverse() => Some(Net::FALSE),
            _ if let Some(net) = self.find(pair) => Some(net),
            _ => None,
        }
    }
}
