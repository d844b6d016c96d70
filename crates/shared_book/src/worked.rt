//! The worked examples: each function states a fact of a small shared history, and proving it is computing
//! it.

pub mod legal;
pub mod replies;
pub mod stops;
