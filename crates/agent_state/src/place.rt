/// Where the live part of an agent's file stands: which number of the head names it, where it starts, the
/// closed gate after its last batch, and how long it was when it was written anew.
#[derive(Clone, Copy, Debug, PartialEq, Eq)]
pub struct Place {
    pub second: bool,
    pub start: u64,
    pub gate: u64,
    pub fresh: u64,
}
