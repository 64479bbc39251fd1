//! The words of the vertices, filled in their order: a vertex reads earlier ones only.
// `Graph::value` fills words with the values of one code, each a `bool`; here a word has the values of up to 64 codes, and is
// gathered for an input. What the two loops prove is one lemma (`Filling` of aig).
ghost use Rattle.std.specs.Prelude.{◌≡◌, ℕ, ◌/◌, ◌<◌, ◌≤◌, length, slice_index};
ghost use Rattle.aig.specs.Nets.{net_value};
ghost use Rattle.aig.specs.Values.{bit, value_by};
ghost use Rattle.aig.specs.Graphs.{inputs_of, vertices, used};
ghost use Rattle.simulation.specs.Lanes.{lane, Simulated, RestKept};

use crate::codes::Codes;
use aig::{Graph, Net};

/// The word of a net, where `words` has those of the vertices.
#[tactic(auto, using(crate::proofs::Filling::inverse_word))]
pub fn net_word(words: &[u64], net: Net) -> u64
    requires { net.0 / 2 < length words.now }
    ensures { (k : ℕ) → k < 64 → bit result k ≡ net_value (lane words.now k) net.0 }
{
    let word = words[net.vertex()];
    if net.is_inverse() { !word } else { word }
}

/// The word of the vertex `v`, where `words` has those of earlier vertices.
fn vertex_word(graph: &Graph, codes: Codes<'_>, words: &[u64], v: usize) -> u64
    requires inside { v < used graph.now }
    requires enough { used graph.now ≤ length words.now }
    ensures { (k : ℕ) → k < length codes.entry.list.now → bit result k ≡ value_by (inputs_of graph.now) (vertices graph.now) (slice_index codes.entry.list.now k) (lane words.now k) v }
{
    if v == 0 {
        0
    } else if v <= graph.inputs() {
        codes.gather(v - 1)
    } else {
        let gate = graph.vertex(v);
        net_word(words, gate.left) & net_word(words, gate.right)
    }
}

/// Simulates a block of codes at once: bit `k` of the word of each vertex in use becomes the vertex's value under code `k`.
/// Words beyond those of the vertices in use are not touched.
pub fn simulate(graph: &Graph, codes: Codes<'_>, words: &mut [u64])
    requires { used graph.now ≤ length words.old }
    ensures simulated { Simulated graph.now codes.entry.list.now words.new }
    ensures rest { RestKept graph.now words.old words.new }
{
    // By index: the word of a vertex is made from all those before it, so no iterator can lend it alone.
    for v in 0..graph.used() {
        words[v] = vertex_word(graph, codes, words, v);
    }
}
