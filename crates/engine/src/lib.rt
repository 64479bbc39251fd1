//! Engines: what is asked of one, what its answer means, and how engines are piled.
//!
//! An engine is asked whether two nets of a graph agree under every input code. It may answer that it does not know, but
//! never within its reach. Chains and ladders are engines made of engines.
#![tactic(auto)]

mod answer;
mod chain;
mod engine;
mod examples;
mod ladder;
mod never;
mod query;
mod tower;
mod workspace;

pub use answer::Answer;
pub use chain::Chain;
pub use engine::Engine;
pub use examples::worked_piles_stand;
pub use ladder::Ladder;
pub use never::Never;
pub use query::Query;
pub use tower::Tower;
pub use workspace::Workspace;
