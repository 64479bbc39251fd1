//! The cache of conjunctions that were made before. It is lossy: a new entry takes the place of another.
ghost use Rattle.std.specs.Prelude.{◌≡◌, ◌<◌, vec_len, IfOk, IfSome};
ghost use Rattle.bdd.specs.Caching.{Stamped, Known, KnowsNone, KnownAfter};

use crate::edges::{Edge, FALSE};
use std::alloc::{AllocError, Global};

/// Two diagrams, in the order of the call.
#[derive(Clone, Copy, PartialEq, Eq, Debug, Drop)]
pub struct Pair {
    pub(super) f: Edge,
    pub(super) g: Edge,
}

/// That `result` is the conjunction of the pair, known under this stamp.
#[derive(Clone, Copy, Drop)]
pub struct Entry {
    pair: Pair,
    result: Edge,
    stamp: u32,
}

// An entry under no stamp: stamps begin at 1. An `Option` would make each entry larger and tell nothing more.
const EMPTY: Entry = Entry {
    pair: Pair { f: FALSE, g: FALSE },
    result: FALSE,
    stamp: 0,
};

/// Entries, of which those under the present stamp count: so all are forgotten at once by a new stamp.
#[derive(Drop)]
pub struct Cache {
    entries: Vec<Entry>,
    stamp: u32,
    ghost some: { 0 < vec_len entries },
    ghost stamped: { Stamped entries.items stamp },
}

impl Cache {
    // A cache of `spots` entries, none of which counts.
    pub(super) fn new(heap: Global, spots: usize) -> Result<Cache, AllocError>
        requires { 0 < spots }
        ensures { IfOk result (λ c. KnowsNone c.entries.items c.stamp) }
    {
        let entries = vec![in heap; EMPTY; spots]?;
        Ok(Cache { entries, stamp: 1 })
    }

    // Where the entry of the pair lies. It is not the hash of `bucket`: another thing is hashed, and the index's contracts
    // name the bucket, while any place does here.
    fn spot(&self, pair: Pair) -> usize
        ensures { result < vec_len self.now.entries }
    {
        (pair.f as usize * 12582917 + pair.g as usize * 4256249) % self.entries.len()
    }

    // The conjunction of the pair, if it is known still.
    pub(super) fn recall(&self, pair: Pair) -> Option<Edge>
        ensures { IfSome result (λ r. Known self.now.entries.items self.now.stamp pair.f pair.g r) }
    {
        let seen = self.entries[self.spot(pair)];
        (seen.stamp == self.stamp && seen.pair == pair).then_some(seen.result)
    }

    // Keeps a conjunction, in the place of another.
    pub(super) fn remember(&mut self, pair: Pair, answer: Edge)
        ensures stamp { self.new.stamp ≡ self.old.stamp }
        ensures known { KnownAfter self.old.entries.items self.new.entries.items self.old.stamp pair.f pair.g answer }
    {
        let k = self.spot(pair);
        self.entries[k] = Entry {
            pair,
            result: answer,
            stamp: self.stamp,
        };
    }

    // Forgets every conjunction, by a new stamp; when the stamps run out, the entries are emptied and they start again.
    pub(super) fn forget(&mut self)
        ensures { KnowsNone self.new.entries.items self.new.stamp }
    {
        if self.stamp == u32::MAX {
            self.entries.fill(EMPTY);
            self.stamp = 1;
        } else {
            self.stamp += 1;
        }
    }
}
