//! The earliest code of a list that separates two nets.
ghost use Rattle.std.specs.Prelude.{◌≡◌, ◌≤◌, length};
ghost use Rattle.aig.specs.Values.{value};
ghost use Rattle.aig.specs.Graphs.{inputs_of, vertices, used, InUse};
ghost use Rattle.simulation.specs.Lanes.{Simulated, RestKept};
ghost use Rattle.simulation.specs.Earliest.{earliest, Tells};

use crate::codes::Codes;
use crate::words::{net_word, simulate};
use aig::{Graph, Net};

/// The index of the first code of a block under which two nets have different values; none exactly if they agree under
/// each. The words are left as `simulate` leaves them.
pub fn earliest(graph: &Graph, codes: Codes<'_>, a: Net, b: Net, words: &mut [u64]) -> Option<usize>
    requires first { InUse graph.now a }
    requires second { InUse graph.now b }
    requires enough { used graph.now ≤ length words.old }
    ensures found { result ≡ earliest codes.entry.list.now (value (inputs_of graph.now) (vertices graph.now) a.0) (value (inputs_of graph.now) (vertices graph.now) b.0) }
    ensures law { Tells codes.entry.list.now (value (inputs_of graph.now) (vertices graph.now) a.0) (value (inputs_of graph.now) (vertices graph.now) b.0) result }
    ensures simulated { Simulated graph.now codes.entry.list.now words.new }
    ensures rest { RestKept graph.now words.old words.new }
{
    simulate(graph, codes, words);
    let difference = net_word(words, a) ^ net_word(words, b);
    let first = difference.trailing_zeros() as usize;
    let count = codes.list.len();
    (first < count).then_some(first)
}
