//! What the contracts don't say: that calls end, and that what they promise is what was meant.
mod notes;
mod orders;
mod threads;
