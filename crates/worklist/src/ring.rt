//! The ring: a work list that takes the oldest item.
//!
//! The waiting items are `count` slots from slot `first` on, and round from the last slot to slot 0. A put writes
//! one slot, and a take writes none.

ghost use Rattle.std.specs.Prelude.{◌≡◌, length, take as front, slice_set};
ghost use Rattle.worklist.specs.Laws.{FirstInFirstOut, Repeats};
ghost use Rattle.worklist.specs.Queues.{Queued, Oldest, Circle, around, behind};
ghost use Rattle.worklist.specs.Owed.{in_order, bag_fits};

use super::list::{Full, WorkList};

/// A ring of `count` slots from `first` on.
// The slots are lent at each call and nothing is allocated, so std's `VecDeque`, which owns its items, is no way.
#[derive(Clone, Copy)]
pub struct Ring {
    first: usize,
    count: usize,
}

impl<T: Copy> WorkList<T> for Ring {
    ghost sound = { λ r slots. Circle r.first r.count slots };

    ghost bag = { λ r slots. front r.count (around r.first slots) };

    ghost joins = { Queued };

    ghost leaves = { Oldest };

    ghost rule = { FirstInFirstOut };

    ghost stores = { λ r slots item after. after ≡ slice_set slots (behind r.first r.count (length slots)) item };

    ghost clears = { λ r slots answer after. after ≡ slots };

    ghost ruled = { λ room calls waiting run. in_order room calls waiting run };

    ghost bounded = { λ s xs ok. bag_fits s.first s.count xs ok };

    fn start() -> Ring {
        Ring { first: 0, count: 0 }
    }

    fn waiting(&self) -> usize {
        self.count
    }

    fn put(&mut self, slots: &mut [T], item: T) -> Result<(), Full> {
        if self.count == slots.len() {
            return Err(Full);
        }
        // Round the end, here by any number of slots and in `take` by one, which needs no sum.
        let to_end = slots.len() - self.first;
        if self.count < to_end {
            slots[self.first + self.count] = item;
        } else {
            slots[self.count - to_end] = item;
        }
        self.count += 1;
        Ok(())
    }

    fn take(&mut self, slots: &mut [T]) -> Option<T> {
        if self.count == 0 {
            return None;
        }
        let oldest = slots[self.first];
        self.count -= 1;
        self.first += 1;
        if self.first == slots.len() {
            self.first = 0;
        }
        Some(oldest)
    }
}

/// Two rings that are asked alike answer alike.
pub fn rings_repeat<T>()
    ensures { Repeats {X = T} Queued Oldest }
{}
