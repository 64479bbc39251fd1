//! Simulation: the values of all vertices under up to 64 input codes at once, one word a vertex, and the earliest code of a
//! list that separates two nets. Nothing here allocates.
#![tactic(auto)]

mod codes;
mod examples;
mod laws;
mod separation;
#[cfg(test)]
mod tests;
mod words;

pub use codes::Codes;
pub use examples::worked_lists_stand;
pub use laws::earliest_law_stands;
pub use separation::earliest;
pub use words::simulate;
