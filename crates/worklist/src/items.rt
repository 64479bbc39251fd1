//! The two kinds of items that wait, and how they rank: by their fields in turn.

ghost use Rattle.std.specs.Prelude.{◌≡◌, length, None};
ghost use Rattle.worklist.specs.Bags.{Put};
ghost use Rattle.worklist.specs.Calls.{Promised, take};
ghost use Rattle.worklist.specs.Heaps.{heap_bag, heap_sound};
ghost use Rattle.worklist.specs.Laws.{Repeats};
ghost use Rattle.worklist.specs.Mounds.{Freed};
ghost use Rattle.worklist.specs.Orders.{TookLeast};
ghost use Rattle.worklist.specs.Ranks.{propagations_ordered, resubstitutions_ordered};
ghost use Rattle.worklist.specs.Items.{ByPropagation, ByResubstitution, Before, Earlier, TookForemost, ForemostFirst, Ordered};

use super::heap::Heap;
use super::list::WorkList;

/// An item with an order of its own, said in the words of its fields.
pub trait Item: Ord + Copy {
    /// The first item is before the second.
    ghost before: { Self → Self → Type 0 };

    /// The order is total, `cmp` answers by it, and a heap that takes least first takes its items by it.
    ghost ordered: { Ordered Self.cmp before };
}

/// A decision diagram of `vertex` at `level` that waits to be propagated, of `size` nodes.
#[derive(Clone, Copy, Default, PartialEq, Eq, PartialOrd, Ord)]
pub struct Propagation {
    pub size: u32,
    pub vertex: u16,
    pub level: u8,
}

impl Item for Propagation {
    ghost before = { Before };

    ghost ordered = { propagations_ordered };
}

/// A decision diagram that waits to have a variable replaced, of `size` nodes: of the first or the second of the
/// two functions in question, `side` 0 or 1, and with a number of its own, `serial`.
// `side` is a number: any `u8` is put, ordered and taken, and an enum of two would ask more of who makes an item.
#[derive(Clone, Copy, PartialEq, Eq, PartialOrd, Ord)]
pub struct Resubstitution {
    pub size: u32,
    pub side: u8,
    pub serial: u32,
}

impl Item for Resubstitution {
    ghost before = { Earlier };

    ghost ordered = { resubstitutions_ordered };
}

/// Takes the waiting item that is before every other.
pub fn next<T: Item>(heap: &mut Heap, slots: &mut [T]) -> Option<T>
    requires { heap_sound T.Ord.cmp heap.old slots.old }
    ensures keeps { heap_sound T.Ord.cmp heap.new slots.new }
    ensures takes { TookForemost T.before (heap_bag heap.old slots.old) result (heap_bag heap.new slots.new) }
    ensures rests { result ≡ None → (heap.new ≡ heap.old) × (slots.new ≡ slots.old) }
    ensures clears { Freed heap.old.count slots.old result slots.new }
    ensures promise { Promised Put (TookForemost T.before) (ForemostFirst T.before) (length slots.old) (heap_bag heap.old slots.old) (take result) (heap_bag heap.new slots.new) }
{
    heap.take(slots)
}

/// The law of items, and what follows of it: two heaps that are asked alike answer alike.
pub fn item_laws<T: Item>()
    ensures ordered { Ordered T.Ord.cmp T.before }
    ensures repeat { Repeats Put (TookLeast T.Ord.cmp) }
{}

/// The same at the two types, whose `cmp` goes by the fields in turn.
pub fn items_ordered()
    ensures propagations { Ordered ByPropagation Before }
    ensures resubstitutions { Ordered ByResubstitution Earlier }
    ensures propagations_repeat { Repeats Put (TookLeast ByPropagation) }
    ensures resubstitutions_repeat { Repeats Put (TookLeast ByResubstitution) }
{
    item_laws::<Propagation>();
    item_laws::<Resubstitution>();
}
