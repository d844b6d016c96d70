use crate::node::Node;

/// What the nodes of a document name: the text that they stand in, or nodes that are kept where they don't.
#[derive(Drop)]
pub(crate) struct Texts<'a> {
    pub(crate) text: &'a str,
    pub(crate) kept: Vec<Node<'a>>,
}
