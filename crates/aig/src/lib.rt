//! And-inverter graphs with survivors: nets, vertices, the AND, the nine gate kinds, values under input codes, and merging.
#![tactic(auto)]

mod cascade;
mod examples;
mod graph;
mod net;
mod pair;
mod table;
mod values;
mod vertex;

pub use examples::worked_run_stands;
pub use graph::Graph;
pub use net::Net;
pub use vertex::Vertex;
