//! A bounded set of nodes in the order of their making, with an index: finding a node by what it is, adding one, and
//! taking the last ones back.
//!
//! The nodes lie in as many buckets as there is room for nodes. A bucket is a chain from its last node to its first.
ghost use Rattle.std.specs.Prelude.{◌≡◌, ℕ, ◌+◌, ◌<◌, ◌≤◌, [], ◌∷◌, ◌++◌, length, take, vec_len, vec_capacity, IfOk, MatchBool, MatchOption};
ghost use Rattle.bdd.specs.Diagram.{node_at, Fits, Good, Grown};
ghost use Rattle.bdd.specs.Index.{Linked, Lacks};

use super::nodes::Node;
use std::alloc::{AllocError, Global};

/// Nodes that are ordered, reduced and without twins, each of which the index has.
///
/// `heads` has, for each bucket, the place of its last node, and `next` for each node the place of the one before it in
/// its bucket; 0, which is the constant and in no bucket, ends one.
// A map of the library promises room after a reservation, but not that a cut gives the room back, so an insert after cuts
// could want memory; and nothing allocates once the table is made: so the chains are places.
// Place 0 ends one, since an `Option<u32>` would take twice the room of a place.
// `next` lies beside `nodes`, and not in each, since all but a search reads a slice of nodes alone. `limit` is the length
// of `heads`, and is kept since the contracts name it.
#[derive(Drop)]
pub struct NodeSet {
    pub(super) nodes: Vec<Node>,
    next: Vec<u32>,
    heads: Vec<u32>,
    limit: usize,
    ghost good: { Good nodes.items },
    ghost linked: { Linked nodes.items next.items heads.items },
    ghost within: { vec_len nodes ≤ limit },
    ghost room: { limit ≤ vec_capacity nodes },
    ghost next_room: { limit ≤ vec_capacity next },
    ghost small: { limit ≤ 16384 },
}

impl NodeSet {
    // An empty set with room for `limit` nodes.
    pub(super) fn new(heap: Global, limit: usize) -> Result<NodeSet, AllocError>
        requires some { 0 < limit }
        requires small { limit ≤ 16384 }
        ensures { IfOk result (λ s. (s.nodes.items ≡ []) × (s.limit ≡ limit)) }
    {
        let nodes = Vec::with_capacity(heap, limit)?;
        let next = Vec::with_capacity(heap, limit)?;
        let heads = vec![in heap; 0u32; limit]?;
        Ok(NodeSet {
            nodes,
            next,
            heads,
            limit,
        })
    }

    // How many nodes there are.
    pub(super) fn len(&self) -> usize
        ensures { result ≡ length self.now.nodes.items }
    {
        self.nodes.len()
    }

    // Whether there is no room for a node more.
    pub(super) fn is_full(&self) -> bool
        ensures { MatchBool result (self.now.limit ≤ length self.now.nodes.items) (length self.now.nodes.items < self.now.limit) }
    {
        self.nodes.len() >= self.limit
    }

    // Where the node is, if it is there. The walk goes from place to place, so it counts nothing that a `for` could count.
    pub(super) fn find(&self, n: &Node) -> Option<usize>
        ensures { MatchOption result (Lacks self.now.nodes.items n.now) (λ k. (k < length self.now.nodes.items) × (node_at self.now.nodes.items k ≡ n.now)) }
    {
        let mut at = self.heads[n.bucket(self.heads.len())] as usize;
        while at > 0 {
            if self.nodes[at - 1] == *n {
                return Some(at - 1);
            }
            at = self.next[at - 1] as usize;
        }
        None
    }

    // Adds a node that is not there, first in its bucket.
    pub(super) fn link(&mut self, n: Node)
        requires fits { Fits self.old.nodes.items (length self.old.nodes.items) n }
        requires room { length self.old.nodes.items < self.old.limit }
        requires fresh { Lacks self.old.nodes.items n }
        ensures limit { self.new.limit ≡ self.old.limit }
        ensures items { self.new.nodes.items ≡ self.old.nodes.items ++ n ∷ [] }
    {
        let b = n.bucket(self.heads.len());
        self.next.push_reserved(self.heads[b]);
        self.nodes.push_reserved(n);
        self.heads[b] = self.nodes.len() as u32;
    }

    // Takes the last node back.
    fn unlink(&mut self)
        requires some { 0 < length self.old.nodes.items }
        ensures limit { self.new.limit ≡ self.old.limit }
        ensures len { length self.new.nodes.items + 1 ≡ length self.old.nodes.items }
        ensures nodes { Grown self.new.nodes.items self.old.nodes.items }
    {
        let n = self.nodes.take_last();
        let before = self.next.take_last();
        let b = n.bucket(self.heads.len());
        self.heads[b] = before;
    }

    // Takes the nodes from `mark` on back, one by one: each one's bucket is to lose it. The length is what the loop goes by.
    pub(super) fn cut(&mut self, mark: usize)
        requires { mark ≤ length self.old.nodes.items }
        ensures limit { self.new.limit ≡ self.old.limit }
        ensures nodes { self.new.nodes.items ≡ take mark self.old.nodes.items }
    {
        while self.len() > mark {
            self.unlink();
        }
    }
}
