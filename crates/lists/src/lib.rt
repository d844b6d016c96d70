//! The list that every crate above speaks of: growable, and seen by contracts as the list of its
//! elements. Every list type of the other crates is an alias of [`Many`].
#![tactic(auto)]

mod many;
mod text;

pub use many::{Ids, Many, Marks, Nums};
pub use std::alloc::AllocError as Memory;
pub use text::Text;
