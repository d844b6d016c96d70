/// The numbers of a script that is drawn.
#[derive(Clone, Copy, Debug, PartialEq, Eq)]
pub struct ScriptShape {
    pub seed: u64,
    /// How many events are drawn.
    pub events: u32,
}
