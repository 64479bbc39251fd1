//! Values as words of workspace: word `v` is 1 where vertex `v` has the value true, and 0 elsewhere.
// Crate `simulation` fills such words too, with a bit for each of up to 64 codes. The two stay apart: here a vertex has the
// value of one code, a `bool`; there it has the values of all codes, a word that is gathered for an input. What the two
// loops prove is one lemma (proofs/Filling.antt).
ghost use Rattle.std.specs.Prelude.{◌≡◌, ℕ, ◌/◌, ◌<◌, ◌≤◌, Bool, length};
ghost use Rattle.aig.specs.Nets.{net_value};
ghost use Rattle.aig.specs.Table.{left_of, right_of};
ghost use Rattle.aig.specs.Values.{value_by, vertex_value};
ghost use Rattle.aig.specs.Invariant.{ReadsEarlier};
ghost use Rattle.aig.specs.Words.{held};

use crate::net::Net;
use crate::table::Table;

/// The value of a net, where `words` has those of the vertices.
// `net_word` of simulation inverts a word as this does a `bool`. A method of `Net` over `T: Not` would save one line in
// each, and both would have to say by the clauses of `Not` what `!` is.
pub fn net_bit(words: &[u64], net: Net) -> bool
    requires { net.0 / 2 < length words.now }
    ensures { result ≡ net_value (held words.now) net.0 }
{
    let value = words[net.vertex()] == 1;
    if net.is_inverse() { !value } else { value }
}

impl Table<'_> {
    /// The value of the vertex `v` under a code, where `words` has those of the vertices that it reads.
    pub fn vertex_bit(self, words: &[u64], v: usize, code: u64) -> bool
        requires narrow { self.inputs ≤ 64 }
        requires inside { v < length self.vertices.now }
        requires reads { self.inputs < v → (left_of self.vertices.now v / 2 < length words.now) × (right_of self.vertices.now v / 2 < length words.now) }
        ensures { result ≡ value_by self.entry.inputs self.entry.vertices.now code (held words.now) v }
    {
        if v == 0 {
            false
        } else if v <= self.inputs {
            (code >> (v - 1)) & 1 == 1
        } else {
            let vertex = self.vertices[v];
            net_bit(words, vertex.left) && net_bit(words, vertex.right)
        }
    }

    /// Fills a word for each vertex with its value under a code.
    pub fn fill(self, code: u64, words: &mut [u64])
        requires narrow { self.inputs ≤ 64 }
        requires earlier { ReadsEarlier self.inputs self.vertices.now }
        requires enough { length self.vertices.now ≤ length words.old }
        ensures { (v : ℕ) → v < length self.entry.vertices.now → held words.new v ≡ vertex_value self.entry.inputs self.entry.vertices.now code v }
    {
        // A loop over the places: each word is written from the words before it.
        for v in 0..self.vertices.len() {
            words[v] = u64::from(self.vertex_bit(words, v, code));
        }
    }
}
