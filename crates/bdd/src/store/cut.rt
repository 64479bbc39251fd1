//! Cutting the table back to a mark, so that the nodes of a dropped diagram are used again.
ghost use Rattle.std.specs.Prelude.{◌≡◌, ◌≤◌, length, take};
ghost use Rattle.bdd.specs.Contents.{nodes_of, limit_of};

use super::Table;

impl Table {
    /// Takes back the nodes from `mark` on. It costs no more than the nodes that it takes back.
    pub fn cut(&mut self, mark: usize)
        requires within { mark ≤ length (nodes_of self.old) }
        ensures limit { limit_of self.new ≡ limit_of self.old }
        ensures nodes { nodes_of self.new ≡ take mark (nodes_of self.old) }
    {
        self.cache.forget();
        self.set.cut(mark);
    }
}
