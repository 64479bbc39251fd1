//! The trait of work lists.
//!
//! A work list holds counters only. Its items wait in slots that the caller lends at each call, and nothing is
//! allocated. The ghost members say what an implementation means by its counters and slots; the clauses are what
//! code over any work list is proved from.

ghost use Rattle.std.specs.Prelude.{◌≡◌, ℕ, ◌≤◌, Bool, List, [], length, None, Option, is_ok, OnOk, OnErr};
ghost use Rattle.worklist.specs.Bags.{Put, Took};
ghost use Rattle.worklist.specs.Calls.{Call, Run, Promised, put, take};

use thiserror::Error;

/// Why a put is refused: every slot holds a waiting item.
#[derive(Clone, Copy, Debug, PartialEq, Eq, Error)]
#[error("every slot holds a waiting item")]
pub struct Full;

/// A bag of waiting items of type `T`.
pub trait WorkList<T>: Sized {
    /// What the list keeps of its slots from call to call. It stands in the clauses, and is no ghost field, since it
    /// speaks of slots that are lent later.
    ghost sound: { Self → List T → Type 0 };

    /// The waiting items.
    ghost bag: { Self → List T → List T };

    /// What a put does: the number of slots, the bag before, the item, whether it was accepted, the bag after.
    ghost joins: { ℕ → List T → T → Bool → List T → Type 0 };

    /// What a take does: the bag before, the answer, the bag after.
    ghost leaves: { List T → Option T → List T → Type 0 };

    /// What every string of calls comes to, of which the bag that then waits is the second argument.
    ghost rule: { List (Call T) → List T → Type 0 };

    /// Which slots an accepted put writes: the list and the slots before, the item, the slots after.
    ghost stores: { Self → List T → T → List T → Type 0 };

    /// Which slots a take writes: the list and the slots before, the answer, the slots after.
    ghost clears: { Self → List T → Option T → List T → Type 0 };

    /// A list with nothing waiting, whatever slots it will be lent.
    fn start() -> Self
        ensures { (slots : List T) → sound result slots × (bag result slots ≡ []) };

    /// How many items wait.
    fn waiting(&self) -> usize
        ensures { (slots : List T) → sound self.now slots → result ≡ length (bag self.now slots) };

    /// Adds an item, or answers `Full` and changes nothing where every slot holds a waiting item. The Bool by which
    /// `Put` and `Call` say that an item was accepted is the answer's `is_ok`.
    fn put(&mut self, slots: &mut [T], item: T) -> Result<(), Full>
        requires { sound self.old slots.old }
        ensures keeps { sound self.new slots.new }
        ensures puts { Put (length slots.old) (bag self.old slots.old) item (is_ok result) (bag self.new slots.new) }
        ensures joins { joins (length slots.old) (bag self.old slots.old) item (is_ok result) (bag self.new slots.new) }
        ensures refuses { OnErr result ((self.new ≡ self.old) × (slots.new ≡ slots.old)) }
        ensures stores { OnOk result (stores self.old slots.old item slots.new) }
        ensures promise { Promised joins leaves rule (length slots.old) (bag self.old slots.old) (put item (is_ok result)) (bag self.new slots.new) };

    /// Takes a waiting item and answers it, or answers none and changes nothing where none waits.
    fn take(&mut self, slots: &mut [T]) -> Option<T>
        requires { sound self.old slots.old }
        ensures keeps { sound self.new slots.new }
        ensures takes { Took (bag self.old slots.old) result (bag self.new slots.new) }
        ensures leaves { leaves (bag self.old slots.old) result (bag self.new slots.new) }
        ensures rests { result ≡ None → (self.new ≡ self.old) × (slots.new ≡ slots.old) }
        ensures clears { clears self.old slots.old result slots.new }
        ensures promise { Promised joins leaves rule (length slots.old) (bag self.old slots.old) (take result) (bag self.new slots.new) };

    ghost ruled: { (room : ℕ) (calls : List (Call T)) (waiting : List T) → Run joins leaves room calls waiting → rule calls waiting };

    ghost bounded: { (s : Self) (slots : List T) → sound s slots → length (bag s slots) ≤ length slots };
}
