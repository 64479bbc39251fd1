//! Opening: a graph that is unopened, and one of the constant and its inputs.
ghost use Rattle.std.specs.Prelude.{◌≡◌, ◌<◌, ◌≤◌, [], IfOk};
ghost use Rattle.aig.specs.Table.{opening};
ghost use Rattle.aig.specs.Graphs.{inputs_of, places_of, vertices};

use super::Graph;
use crate::net::Net;
use crate::vertex::Vertex;
use std::alloc::{AllocError, Global};

impl Graph {
    /// A graph with no input, no place and no vertex in use.
    // No `Option` of a graph: a session without inputs and places answers every call by its ordinary checks.
    pub fn unopened(heap: Global) -> Graph
        ensures inputs { inputs_of result ≡ 0 }
        ensures places { places_of result ≡ 0 }
        ensures vertices { vertices result ≡ [] }
    {
        Graph {
            inputs: 0,
            places: 0,
            table: Vec::new(heap),
        }
    }

    /// A graph of the constant and its inputs, with memory for so many vertices.
    pub fn new(heap: Global, inputs: usize, places: usize) -> Result<Graph, AllocError>
        requires narrow { inputs ≤ 64 }
        requires room { inputs < places }
        requires bounded { places ≤ 4096 }
        ensures { IfOk result (λ g. (inputs_of g ≡ inputs) × (places_of g ≡ places) × (vertices g ≡ opening inputs)) }
    {
        let mut table = Vec::with_capacity(heap, places)?;
        for v in 0..=inputs {
            table.push_reserved(Vertex {
                left: Net::FALSE,
                right: Net::FALSE,
                link: Net::of(v),
            });
        }
        Ok(Graph {
            inputs,
            places,
            table,
        })
    }
}
