//! Runs both work lists through thousands of puts and takes, made by a small generator, and compares each answer
//! with what a plain list of the waiting items says.

#![tactic(auto)]

mod generator;
mod model;

use generator::Generator;
use model::Model;
use std::alloc::{AllocError, Global};
use std::{fmt, io};
use worklist::heap::Heap;
use worklist::items::Propagation;
use worklist::list::{Full, WorkList};
use worklist::ring::Ring;
use worklist::through::{through_heap, through_ring};

/// How many slots a list is lent.
const SLOTS: usize = 48;

/// How many calls a list gets.
const CALLS: u32 = 6000;

/// For how many calls it is mostly puts, and then mostly takes.
const TURN: u32 = 400;

/// Of how many calls `MANY` or `FEW` are puts, by turns.
const OUT_OF: u64 = 16;

const MANY: u64 = 11;

const FEW: u64 = 5;

/// How many items are passed through each list.
const PASSED: usize = 2000;

/// One time more.
fn count(times: &mut u32) {
    *times = times.saturating_add(1);
}

/// How often each answer of the list of this name came, how often it was not the model's, and how many items wait at
/// the end.
#[derive(Clone, Copy)]
struct Tally {
    name: &'static str,
    put: u32,
    refused: u32,
    taken: u32,
    none: u32,
    wrong: u32,
    waiting: usize,
}

impl Tally {
    fn new(name: &'static str) -> Tally {
        Tally {
            name,
            put: 0,
            refused: 0,
            taken: 0,
            none: 0,
            wrong: 0,
            waiting: 0,
        }
    }
}

impl fmt::Display for Tally {
    fn fmt<W: fmt::Write>(&self, f: &mut fmt::Formatter<W>) -> fmt::Result {
        writeln!(
            f,
            "{}: put {} refused {} taken {} none {}",
            self.name, self.put, self.refused, self.taken, self.none
        )?;
        write!(
            f,
            "{}: waiting {} wrong {}",
            self.name, self.waiting, self.wrong
        )
    }
}

/// A work list, the slots that it is lent, the model that it is compared with, and the tally of its answers.
// That the list is sound stands in the clauses: a ghost field is a proposition, and `sound` is any type.
#[derive(Drop)]
struct Trial<W: WorkList<Propagation>> {
    list: W,
    slots: [Propagation; SLOTS],
    model: Model,
    tally: Tally,
}

impl<W: WorkList<Propagation>> Trial<W> {
    fn new(heap: Global, name: &'static str) -> Trial<W>
        ensures { W.WorkList.sound result.list result.slots }
    {
        Trial {
            list: W::start(),
            slots: [Propagation::default(); SLOTS],
            model: Model::new(heap),
            tally: Tally::new(name),
        }
    }

    /// Puts an item into the list and, where it is accepted, into the model; it is to be accepted while there is room.
    fn put(&mut self, item: Propagation) -> Result<(), AllocError>
        requires { W.WorkList.sound self.old.list self.old.slots }
        ensures { W.WorkList.sound self.new.list self.new.slots }
    {
        let room = self.model.waiting() < self.slots.len();
        let answer = self.list.put(&mut self.slots, item);
        if answer.is_ok() != room {
            count(&mut self.tally.wrong);
        }
        match answer {
            Ok(()) => {
                count(&mut self.tally.put);
                self.model.put(item)?;
            }
            Err(Full) => count(&mut self.tally.refused),
        }
        Ok(())
    }

    /// Takes an item from the list, and from the model the one that `choose` answers of those that wait.
    fn take<F: Fn(&[Propagation]) -> Option<Propagation>>(&mut self, choose: &F)
        requires sound { W.WorkList.sound self.old.list self.old.slots }
        requires callable { F.IsAlwaysCallable choose.now }
        ensures { W.WorkList.sound self.new.list self.new.slots }
    {
        let answer = self.list.take(&mut self.slots);
        if answer != self.model.take(choose) {
            count(&mut self.tally.wrong);
        }
        match answer {
            Some(_) => count(&mut self.tally.taken),
            None => count(&mut self.tally.none),
        }
    }
}

/// A string of calls: mostly puts and mostly takes by turns, so that the list fills up and runs empty. `choose`
/// answers which of the waiting items, the oldest first, is to be taken.
fn mixed<W: WorkList<Propagation> + Drop, F: Fn(&[Propagation]) -> Option<Propagation> + Drop>(
    heap: Global,
    name: &'static str,
    choose: F,
) -> Result<Tally, AllocError>
    requires { F.IsAlwaysCallable choose }
{
    let mut trial = Trial::<W>::new(heap, name);
    let mut numbers = Generator::new(7);
    for round in 0..CALLS {
        let puts = if round / TURN % 2 == 0 { MANY } else { FEW };
        if numbers.below(OUT_OF) < puts {
            trial.put(numbers.item())?;
        } else {
            trial.take(&choose);
        }
    }
    trial.tally.waiting = trial.list.waiting();
    Ok(trial.tally)
}

/// Makes the items that are passed through a list.
// In their place: an array that is handed out lay on the stack once more.
fn make(items: &mut [Propagation; PASSED], seed: u64) {
    let mut numbers = Generator::new(seed);
    for item in items.iter_mut() {
        *item = numbers.item();
    }
}

/// How many items are less than the one before them, after a pass through a heap.
fn descents() -> usize {
    let mut slots = [Propagation::default(); PASSED];
    let mut items = [Propagation::default(); PASSED];
    make(&mut items, 11);
    through_heap(&mut slots, &mut items);
    items.windows(2).filter(|pair| pair[1] < pair[0]).count()
}

/// How many items are not where they were, after a pass through a ring.
fn displaced() -> usize {
    let mut slots = [Propagation::default(); PASSED];
    let mut before = [Propagation::default(); PASSED];
    make(&mut before, 13);
    let mut after = before;
    through_ring(&mut slots, &mut after);
    before
        .iter()
        .zip(after.iter())
        .filter(|(a, b)| a != b)
        .count()
}

fn main(rt: HostRuntime) -> io::Result<()> {
    let least = |waiting: &[Propagation]| waiting.iter().copied().min();
    let oldest = |waiting: &[Propagation]| waiting.first().copied();
    println!(rt; "{}", mixed::<Heap, _>(rt.alloc(), "heap", least)?)?;
    println!(rt; "{}", mixed::<Ring, _>(rt.alloc(), "ring", oldest)?)?;
    println!(rt; "heap: {PASSED} passed, {} descents", descents())?;
    println!(rt; "ring: {PASSED} passed, {} displaced", displaced())
}
