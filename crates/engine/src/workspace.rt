//! Scratch memory that a caller lends to an engine.
ghost use Rattle.std.specs.Prelude.{◌≡◌, IfOk};
ghost use Rattle.engine.specs.Spaces.{words_of, nodes_of};

use std::alloc::{AllocError, Global};

/// Scratch for an engine: words, and the length of the node table. No promise speaks of what the words hold.
#[derive(Drop)]
pub struct Workspace {
    pub words: Vec<u64>,
    pub nodes: usize,
}

impl Workspace {
    /// A workspace of so many words, and with a node table of such a length. Fails only for want of memory.
    pub fn new(heap: Global, words: usize, nodes: usize) -> Result<Workspace, AllocError>
        ensures { IfOk result (λ w. (words_of w ≡ words) × (nodes_of w ≡ nodes)) }
    {
        let words = vec![in heap; 0u64; words]?;
        Ok(Workspace { words, nodes })
    }
}
