//! A session: a graph that is opened, grown gate by gate, and asked for values.
use aig::Graph;

mod gating;
mod opens;
mod values;

/// A session over one graph. A new one is unopened: it has no input and no vertex in use.
#[derive(Drop)]
pub struct Session {
    graph: Graph,
}
