//! Opening a session, and what it tells of itself.
ghost use Rattle.std.specs.Prelude.{◌≡◌};
ghost use Rattle.comparer.specs.Sessions.{inputs_of, places_of, used};
ghost use Rattle.comparer.specs.Calls.{Unopened, Opened};

use super::Session;
use crate::refusal::Refusal;
use aig::Graph;
use std::alloc::Global;

impl Session {
    /// A session that is not opened yet.
    pub fn new(heap: Global) -> Session
        ensures { Unopened result }
    {
        Session {
            graph: Graph::unopened(heap),
        }
    }

    /// Opens the session, anew where it was open, with so many inputs and a table of so many places. All memory that the
    /// session will want is reserved here.
    pub fn open(&mut self, heap: Global, inputs: usize, places: usize) -> Result<(), Refusal>
        ensures { Opened self.old inputs places result self.new }
    {
        if !(1..=64).contains(&inputs) {
            return Err(Refusal::InputCount);
        }
        if !(inputs + 1..=4096).contains(&places) {
            return Err(Refusal::TableLength);
        }
        self.graph = Graph::new(heap, inputs, places)?;
        Ok(())
    }

    /// How many inputs the session has.
    pub fn inputs(&self) -> usize
        ensures { result ≡ inputs_of self.now }
    {
        self.graph.inputs()
    }

    /// How many places its table has.
    pub fn places(&self) -> usize
        ensures { result ≡ places_of self.now }
    {
        self.graph.places()
    }

    /// How many vertices are in use.
    pub fn used(&self) -> usize
        ensures { result ≡ used self.now }
    {
        self.graph.used()
    }
}
