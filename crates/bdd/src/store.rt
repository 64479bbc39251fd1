//! The table: a set of nodes, with a cache of conjunctions, and marks and images as scratch.
ghost use Rattle.std.specs.Prelude.{◌≡◌, ◌<◌, ◌≤◌, [], length, vec_len, IfOk};
ghost use Rattle.bdd.specs.Caching.{AllRight};

use crate::edges::{Edge, FALSE};
use cache::Cache;
use node_set::NodeSet;
use std::alloc::{AllocError, Global};

mod build;
mod cache;
mod compose;
mod conjunction;
mod count;
mod cut;
mod marking;
mod node_set;
pub mod nodes;
mod separate;
mod topmost;
mod walk;

/// A bounded table of nodes. What its cache knows is right.
///
/// `marks` and `images` have a place for each node, and hold nothing between calls.
// They are two, since `size` and `topmost` mark nodes and have no images.
// That an edge lies within the table stands in the clauses: an edge outlives a cut, so that its place exists is a fact of
// edge and table together, which no type of either holds.
#[derive(Drop)]
pub struct Table {
    set: NodeSet,
    cache: Cache,
    marks: Vec<bool>,
    images: Vec<Edge>,
    ghost cached: { AllRight set.nodes.items cache.entries.items cache.stamp },
    ghost marks_room: { set.limit ≤ vec_len marks },
    ghost images_room: { set.limit ≤ vec_len images },
}

impl Table {
    ghost use Rattle.bdd.specs.Contents.{nodes_of, limit_of};

    /// An empty table with room for `limit` nodes, 1 to 16,384.
    // The bounds are asked of the caller: a type of its own for `limit` would be one more number to convert at the call.
    pub fn new(heap: Global, limit: usize) -> Result<Table, AllocError>
        requires some { 0 < limit }
        requires small { limit ≤ 16384 }
        ensures { IfOk result (λ t. (nodes_of t ≡ []) × (limit_of t ≡ limit)) }
    {
        let set = NodeSet::new(heap, limit)?;
        let cache = Cache::new(heap, limit)?;
        let marks = vec![in heap; false; limit]?;
        let images = vec![in heap; FALSE; limit]?;
        Ok(Table {
            set,
            cache,
            marks,
            images,
        })
    }

    /// How many nodes the table holds: the mark to cut back to.
    pub fn len(&self) -> usize
        ensures { result ≡ length (nodes_of self.now) }
    {
        self.set.len()
    }
}
