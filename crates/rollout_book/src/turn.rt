/// How many operations a round has ended, and how many it has begun.
#[derive(Clone, Copy, Debug, Drop, PartialEq, Eq)]
pub struct Turn {
    pub dones: u32,
    pub begins: u32,
}
