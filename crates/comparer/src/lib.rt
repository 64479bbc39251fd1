//! Sessions: opening, gates and values, with every refusal by its case and in its order. Every call of this crate checks
//! what it is given; none counts on its caller.
#![tactic(auto)]

mod refusal;
mod session;

pub use refusal::Refusal;
pub use session::Session;
