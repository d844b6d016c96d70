use crate::read::Document;
use fraction_lp::Proof;

/// What a document says of fewer rate steps: so many of them are impossible, and what shows it.
#[derive(Debug, Drop)]
pub struct Claim {
    pub steps: u32,
    pub proof: Proof,
}

/// A document, and what it says of fewer rate steps, if it does.
#[derive(Debug, Drop)]
pub struct Claimed {
    pub document: Document,
    pub claim: Option<Claim>,
}
