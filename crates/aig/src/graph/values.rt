//! The value of a net under an input code.
ghost use Rattle.std.specs.Prelude.{◌≡◌, ◌≤◌, length};
ghost use Rattle.aig.specs.Values.{value};
ghost use Rattle.aig.specs.Graphs.{inputs_of, vertices, used, InUse};

use super::Graph;
use crate::net::Net;
use crate::values::net_bit;

impl Graph {
    /// The value of a net under a code, with a word of workspace for each vertex in use.
    // `enough` is a relation of the graph and of words that are lent for this call, so no type of either holds it.
    pub fn value(&self, net: Net, code: u64, words: &mut [u64]) -> bool
        requires inside { InUse self.now net }
        requires enough { used self.now ≤ length words.old }
        ensures { result ≡ value (inputs_of self.now) (vertices self.now) net.0 code }
    {
        self.as_table().fill(code, words);
        net_bit(words, net)
    }
}
