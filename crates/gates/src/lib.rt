//! The nine gate kinds: their numbers, which operands each reads, and the Boolean function each has.
//! Sheets and sessions name kinds by number; both take the meaning of a number from here.
#![tactic(auto)]

mod kind;

pub use kind::{Kind, UnknownKind, reads_b, reads_c};
