//! JSON (RFC 8259) as one flat list of nodes of 12 bytes over the borrowed text, seen as the data that `serde_json`
//! reads.
//!
//! [`Document::read`] answers a document exactly where `serde_json` reads a value, and its root is seen as
//! that value: nesting stops at 127, a number too large for a float is refused, and of equal keys the last
//! counts. [`Element`] is a value in the document and [`Elements`] what is left of an array; each call is an
//! equation on the data.
//!
//! A plain text, in which blanks alone stand before a token, nothing in a string is escaped and each number is
//! whole and below 2^64, is read where it stands. Any other is read by `json`'s reader, which takes a [`Scratch`]
//! as long as the text; its nodes, of 24 bytes, are kept beside the list.
#![tactic(auto)]

mod build;
mod document;
mod element;
mod elements;
mod fault;
mod kept;
mod node;
mod number;
mod plain_token;
mod plain_value;
mod spot;
mod texts;
mod unread;

pub use document::Document;
pub use element::Element;
pub use elements::Elements;
pub use fault::DataFault;
pub use json::Scratch;
