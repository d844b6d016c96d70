/// The numbers of a trial.
#[derive(Clone, Copy, Debug, PartialEq, Eq)]
pub struct Shape {
    /// Of each link a share 1/k stays free.
    pub k: u32,
    pub switches: u32,
    pub flows: u32,
    pub seed: u64,
    /// How many events are drawn.
    pub events: u32,
}
