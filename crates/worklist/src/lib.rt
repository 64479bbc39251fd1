//! Work lists: bags of waiting items, in slots that the caller lends at each call.
//!
//! [`list`] has the trait and what it promises, [`heap`] the list that takes the least item, [`ring`] the list
//! that takes the oldest, [`items`] the two item types, [`passing`] code over any work list, and [`through`] what
//! it comes to with either list.

#![tactic(auto)]

pub mod heap;
pub mod items;
pub mod list;
pub mod passing;
pub mod ring;
mod sift;
pub mod through;
