//! Binary decision diagrams with inverted edges, in a bounded table of nodes.
//!
//! A diagram is named by an edge. Two edges of one table have the same function exactly if they are the same edge, so
//! comparing functions is comparing numbers. Nothing allocates once the table is made.
#![tactic(auto)]

pub mod edges;
pub mod laws;
pub mod store;

pub use edges::{Edge, FALSE, TRUE, inverse};
pub use store::Table;
